// The symbols and rules of an ABNF text's bodies: the variables of letters, the terminals of characters, the rules as
// sort keys.
#![tactic(auto)]

pub mod characters;
mod items;
pub mod letters;
pub mod rules;
pub mod symbols;

// How many bytes there are.
pub const BYTES: usize = 256;

// How many letters there are, without regard to case.
pub const LETTERS: usize = 26;
