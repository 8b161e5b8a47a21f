// Usefulness: which symbols of a grammar are productive, which are useful, which lead to a symbol, and which rules
// have useful symbols alone. Operations on a grammar build on it.
#![tactic(auto)]

pub mod theorems;

// How a rule adds to a set of symbols. Up: its head, where its whole body is in the set. Down: the symbols of its
// body, where its head is. Back: its head, where some symbol of its body is.
#[derive(Clone, Copy)]
pub enum Direction {
    Up,
    Down,
    Back,
}
