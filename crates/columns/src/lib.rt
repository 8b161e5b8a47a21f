// The index of a bit table, made once a call: its columns, and where something is pending.
#![tactic(auto)]

pub mod index;
pub mod turn;

// An index of a bit table, in words of 32 bits: for each symbol and state the states from which a transition leads
// there, first those that are there, pending or done, then those that are done; then a flag for each row that has
// something pending, and one for each word of such flags that is not 0; then a place before which nothing is pending.
pub const INDEX_WORDS: usize = 4163;

pub const DONE_COLUMNS: usize = 2048;

pub const ROW_FLAGS: usize = 4096;

pub const GROUP_FLAGS: usize = 4160;

pub const BOUND: usize = 4162;

// The words of the squares that are turned at once, for the rows of eight symbols.
pub const SQUARE_WORDS: usize = 256;
