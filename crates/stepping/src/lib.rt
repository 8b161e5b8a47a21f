// One step on a bit table.
#![tactic(auto)]

pub mod step;
