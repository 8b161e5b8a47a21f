// Forms as definitions: whether a form is accepted on a table, and the listing that shows why; and what is proved of
// them. There is no code here but the shapes of the answers.
#![tactic(auto)]

pub mod listing_theorems;
pub mod theorems;

// Why a transition is there: it was given, or by a rule, with the symbols of its body; a pair rule's with the middle
// state.
#[derive(Clone, Copy)]
pub enum Reason {
    Given,
    Empty,
    Unit(u8),
    Pair(u8, u8, u8),
}
