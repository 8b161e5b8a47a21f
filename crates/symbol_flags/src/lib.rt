// Usefulness: which symbols of a grammar are productive, which are useful, which lead to a symbol, and which rules
// have useful symbols alone. Operations on a grammar build on it.
#![tactic(auto)]

pub mod passes;
pub mod rules;
pub mod set;
pub mod symbols;
