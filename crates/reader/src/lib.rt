// ABNF text read as a job: the variables and characters that its bodies take, its rules, the operation.
#![tactic(auto)]

pub mod operation;
pub mod walk;
