// The names of an ABNF text: their numbers in a table by hash, and refusal 17.
#![tactic(auto)]

pub mod lines;
pub mod parts;
pub mod table;
pub mod uses;

// The most names that a text can have, as a line takes three bytes or more, and the buckets of the table.
pub const NAMES: usize = 5462;

pub const BUCKETS: usize = 1024;
