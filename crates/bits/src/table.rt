// The bits of a place in the two halves, rows of 32 places as words, and the writes that change what a place says.
// Kept (5): a table is a slice that may be longer than its two halves, as C lends it, and an array would ask more.
ghost use Rattle.std.specs.Prelude.{◌≡◌, true, false, not, ℕ, ◌+◌, ◌*◌, ◌%◌, ◌<◌, ◌≤◌, length, get_or, set};
ghost use Rattle.machine.specs.Table.{lent_of, table_size, reasons_size, is_absent, is_pending_lem, is_done_lem};
ghost use Rattle.machine.specs.Inside.Offers.{VariablePlace, reason_place_of, offer_at, add_offer};
ghost use Rattle.bit_machine.specs.BitTable.{bits_size, bit_of, bit_at, table_of_bits};
ghost use Rattle.bit_machine.specs.Inside.Change.{RowWritten, BitSet, Kept};
ghost use Rattle.bits.specs.Half.{number_of};

use crate::{Half, word};

// The 32 bits of a row in a half as a word: one load.
pub fn row(bits: &[u8], half: Half, k: usize) -> u32
    requires within { (k < 2048) × (bits_size ≤ length bits.now) }
    ensures bits { (j : ℕ) → j < 32 → bit_of result j ≡ bit_at bits.now (number_of half) (k * 32 + j) }
{
    let at = half.begin() + k * 4;
    u32::from_le_bytes([bits[at], bits[at + 1], bits[at + 2], bits[at + 3]])
}

// Writes the 32 bits of a row in a half: one store, which the next load of the row need not wait for, as it would for
// that of a byte.
pub fn write_row(bits: &mut [u8], half: Half, k: usize, word: u32)
    requires within { (k < 2048) × (bits_size ≤ length bits.old) }
    ensures written { RowWritten bits.old bits.new (number_of half) k word }
{
    let at = half.begin() + k * 4;
    bits[at..at + 4].copy_from_slice(&word.to_le_bytes());
}

// Whether a place has its bit in a half.
pub fn has_bit(bits: &[u8], half: Half, place: usize) -> bool
    requires within { (place < table_size) × (bits_size ≤ length bits.now) }
    ensures bit { result ≡ bit_at bits.now (number_of half) place }
{
    word::has_bit(row(bits, half, place / 32), place % 32)
}

// Sets the bit of a place in a half, or clears it.
fn set_bit(bits: &mut [u8], half: Half, place: usize, value: bool)
    requires within { (place < table_size) × (bits_size ≤ length bits.old) }
    ensures changed { BitSet bits.old bits.new (number_of half) place value }
{
    let word = word::with_bit(row(bits, half, place / 32), place % 32, value);
    write_row(bits, half, place / 32, word);
}

// Of a row the places that are done.
pub fn done_row(bits: &[u8], k: usize) -> u32
    requires within { (k < 2048) × (bits_size ≤ length bits.now) }
    ensures done { (j : ℕ) → j < 32 → bit_of result j ≡ is_done_lem (get_or (table_of_bits bits.now)
        (k * 32 + j) 0) }
{
    row(bits, Half::Done, k)
}

// Of a row the places that are there, pending or done.
pub fn there_row(bits: &[u8], k: usize) -> u32
    requires within { (k < 2048) × (bits_size ≤ length bits.now) }
    ensures there { (j : ℕ) → j < 32
        → bit_of result j ≡ not (is_absent (get_or (table_of_bits bits.now) (k * 32 + j) 0)) }
{
    row(bits, Half::Pending, k) | row(bits, Half::Done, k)
}

// Of a row the places that are pending: a place with both bits is done.
pub fn pending_row(bits: &[u8], k: usize) -> u32
    requires within { (k < 2048) × (bits_size ≤ length bits.now) }
    ensures pending { (j : ℕ) → j < 32
        → bit_of result j ≡ is_pending_lem (get_or (table_of_bits bits.now) (k * 32 + j) 0) }
{
    row(bits, Half::Pending, k) & !row(bits, Half::Done, k)
}

// A place that is not done becomes pending.
pub fn make_pending(bits: &mut [u8], place: usize)
    requires within { (place < table_size) × (bits_size ≤ length bits.old) }
    requires notDone { is_done_lem (get_or (table_of_bits bits.old) place 0) ≡ false }
    ensures written { table_of_bits bits.new ≡ set (table_of_bits bits.old) place 1 }
    ensures kept { Kept bits.old bits.new }
{
    set_bit(bits, Half::Pending, place, true);
}

// A pending place becomes done: its pending bit is cleared.
pub fn make_done(bits: &mut [u8], place: usize)
    requires within { (place < table_size) × (bits_size ≤ length bits.old) }
    requires pending { is_pending_lem (get_or (table_of_bits bits.old) place 0) ≡ true }
    ensures written { table_of_bits bits.new ≡ set (table_of_bits bits.old) place 2 }
    ensures kept { Kept bits.old bits.new }
{
    set_bit(bits, Half::Pending, place, false);
    set_bit(bits, Half::Done, place, true);
}

// A variable's transition becomes pending with its entry among the reasons, if it is absent. Answers whether it was.
pub fn offer(
    bits: &mut [u8],
    reasons: &mut [u32],
    place: usize,
    reason_place: usize,
    entry: u32,
) -> bool
    requires long { (bits_size ≤ length bits.old) × (reasons_size ≤ length reasons.old) }
    requires variable { VariablePlace place }
    requires beside { reason_place ≡ reason_place_of place }
    ensures absent { result ≡ is_absent (get_or (table_of_bits bits.old) place 0) }
    ensures written { lent_of (table_of_bits bits.new) reasons.new
        ≡ add_offer (offer_at place entry) (lent_of (table_of_bits bits.old) reasons.old) }
    ensures kept { Kept bits.old bits.new }
{
    if has_bit(bits, Half::Done, place) || has_bit(bits, Half::Pending, place) {
        return false;
    }
    make_pending(bits, place);
    reasons[reason_place] = entry;
    true
}
