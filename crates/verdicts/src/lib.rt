// Verdicts: the codes of the symbols, whether the language is empty and whether it grows.
#![tactic(auto)]

pub mod theorems;

// What is judged of a grammar's language: whether it is empty, and whether it grows.
#[derive(Clone, Copy)]
pub struct Judged {
    pub empty: bool,
    pub growing: bool,
}
