// What the records of a job say: the number of states, single fields, and the rules by rank.
#![tactic(auto)]

pub mod facts;
pub mod sorting;
