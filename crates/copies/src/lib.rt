// Clean copies: a job's useful rules, with their variables numbered from 0, written as a job.
#![tactic(auto)]

pub mod theorems;
