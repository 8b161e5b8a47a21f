// The checks of a call and of its job, and showing the record that they refuse.
#![tactic(auto)]

pub mod call;
pub mod check;
pub mod show;
