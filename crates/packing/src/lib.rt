// Bytes and bits: what a table of bytes says is packed into a bit table, and where a bit table says something new, the
// byte is written.
#![tactic(auto)]

pub mod merge;
pub mod pack;

// The bytes that are looked at together before their rows are: of a byte table 4 rows, of a half of bits 32.
pub const PART_BYTES: usize = 128;

// The parts of a byte table, and those of a half of a bit table.
pub const TABLE_PARTS: usize = 512;

pub const HALF_PARTS: usize = 64;

// What the 32 bytes of a row say, as two words.
#[derive(Clone, Copy)]
pub struct RowWords {
    pub pending: u32,
    pub done: u32,
}
