// Saturation: a counted number of steps on a bit table.
#![tactic(auto)]

pub mod run;
