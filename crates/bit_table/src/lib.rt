// Start and advance on a lent bit table.
#![tactic(auto)]

pub mod operations;
