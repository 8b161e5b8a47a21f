// The bit table and the reasons that a job starts from.
#![tactic(auto)]

pub mod begin;
