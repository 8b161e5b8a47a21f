// A byte table packed into bits: a row of 32 bytes becomes a word of each half.
ghost use Rattle.std.specs.Prelude.{◌≡◌, Bool, true, ◌&&◌, ◌||◌, ℕ, ◌+◌, ◌*◌, ◌%◌, ◌<◌, ◌≤◌, eqb, ltb, length, get_or, replicate};
ghost use Rattle.machine.specs.Table.{table_size, is_pending_lem, is_done_lem};
ghost use Rattle.bit_machine.specs.BitTable.{bits_size, bit_of};
ghost use Rattle.packing.specs.Packing.{Says, PackedRows};

use crate::{PART_BYTES, RowWords, TABLE_PARTS};
use bits::Half;

// Whether all bytes of a part are 0: a walk without a way out, so that the compiler takes many at a time.
// Kept (2): one function for bytes and words (as in columns::turn) needs a trait with a law of `|`, longer than this.
fn is_blank(part: &[u8]) -> bool
    ensures blank { result ≡ true → (i : ℕ) → get_or part.now i 0 ≡ 0 }
{
    part.iter().fold(0, |any, byte| any | *byte) == 0
}

// A word with one bit more.
fn with_bit(word: u32, j: usize, bit: bool) -> u32
    requires within { j < 32 }
    ensures bits { (i : ℕ) → bit_of result i ≡ (bit_of word i || (eqb i j && bit)) }
{
    word | (u32::from(bit) << j)
}

// The words of row k of a byte table.
// Kept (2): one walk makes both words. A walk for each, with the test passed, was tried and took twice the time.
fn row_words(table: &[u8], k: usize) -> RowWords
    requires within { (k < 2048) × (table_size ≤ length table.now) }
    ensures pending { Says is_pending_lem table.now k result.pending }
    ensures done { Says is_done_lem table.now k result.done }
{
    let at = k * 32;
    let mut pending = 0;
    let mut done = 0;
    for j in 0..32 {
        let byte = table[at + j];
        pending = with_bit(pending, j, transitions::table::is_pending(byte));
        done = with_bit(done, j, transitions::table::is_done(byte));
    }
    RowWords { pending, done }
}

// Packs row k besides the rows that are packed already.
pub fn pack_row(table: &[u8], bits: &mut [u8], k: usize)
    requires within { (k < 2048) × (table_size ≤ length table.now) × (bits_size ≤ length bits.old) }
    ensures long { length bits.new ≡ length bits.old }
    ensures packed { (rows : ℕ → Bool) → PackedRows rows table.now bits.old
        → PackedRows (λ r. eqb r k || rows r) table.now bits.new }
{
    let at = k * 32;
    let end = at + 32;
    if is_blank(&table[at..end]) {
        return;
    }
    let w = row_words(table, k);
    bits::table::write_row(bits, Half::Pending, k, w.pending);
    bits::table::write_row(bits, Half::Done, k, w.done);
}

// Packs the four rows of a part, besides all rows before them.
fn pack_part(table: &[u8], bits: &mut [u8], n: usize)
    requires within { (n < 512) × (table_size ≤ length table.now) × (bits_size ≤ length bits.old) }
    requires packed { PackedRows (λ r. ltb r (n * 4)) table.now bits.old }
    ensures long { length bits.new ≡ length bits.old }
    ensures packed { PackedRows (λ r. ltb r ((n + 1) * 4)) table.now bits.new }
{
    let at = n * PART_BYTES;
    let end = at + PART_BYTES;
    if is_blank(&table[at..end]) {
        return;
    }
    for k in n * 4..n * 4 + 4 {
        pack_row(table, bits, k);
    }
}

// Packs a byte table into bits that are all 0.
pub fn pack(table: &[u8], bits: &mut [u8])
    requires long { table_size ≤ length table.now }
    requires zeros { bits.old ≡ replicate 16384 0 }
    ensures long { length bits.new ≡ bits_size }
    ensures packed { PackedRows (λ r. true) table.now bits.new }
{
    for n in 0..TABLE_PARTS {
        pack_part(table, bits, n);
    }
}

// Packs the 32 rows of a symbol besides the rows that are packed already.
pub fn pack_symbol(table: &[u8], bits: &mut [u8], symbol: usize)
    requires within { (symbol < 64) × (table_size ≤ length table.now) × (bits_size ≤ length bits.old) }
    ensures long { length bits.new ≡ length bits.old }
    ensures packed { (rows : ℕ → Bool) → PackedRows rows table.now bits.old
        → PackedRows (λ r. eqb (r % 64) symbol || rows r) table.now bits.new }
{
    for q in 0..32 {
        pack_row(table, bits, q * 64 + symbol);
    }
}
