// Whether a form is accepted, on a table of bytes or of bits.
#![tactic(auto)]

pub mod acceptance;
pub mod ask;

// A word of states for each of the 65 positions of a form.
pub const FINISH_WORDS: usize = 65;
