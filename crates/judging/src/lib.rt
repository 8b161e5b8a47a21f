// Verdicts: the codes of the symbols, whether the language is empty and whether it grows.
#![tactic(auto)]

pub mod codes;
pub mod cycles;
pub mod operation;
