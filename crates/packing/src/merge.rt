// What a machine on bits has changed, written into the byte table: the places that say something new get a 1 or a 2.
ghost use Rattle.std.specs.Prelude.{◌≡◌, true, List, ℕ, ◌+◌, ◌*◌, ◌<◌, ◌≤◌, length, get_or, slice_range};
ghost use Rattle.machine.specs.Table.{table_size};
ghost use Rattle.machine.specs.Theorems.Bytes.{rewritten};
ghost use Rattle.bit_machine.specs.BitTable.{bits_size, half_size, bit_statuses};
ghost use Rattle.bits.specs.Half.{number_of};
ghost use Rattle.packing.specs.Merging.{OnesWritten, Merges, RowsMerged, PartSame};

use crate::{HALF_PARTS, PART_BYTES};
use bits::Half;
use bits::word::Ones;

// Whether two parts of one length are equal: a walk without a way out, so that the compiler takes many bytes at a time.
// Kept (4): `a == b` was tried and took twice the time, as it stops at bytes that differ, and most parts are equal.
fn is_same(a: &[u8], b: &[u8]) -> bool
    requires sized { (length a.now ≡ 128) × (length b.now ≡ 128) }
    ensures same { result ≡ true → (i : ℕ) → i < 128 → get_or a.now i 0 ≡ get_or b.now i 0 }
{
    let mut different = false;
    for (x, y) in a.iter().zip(b) {
        different |= x != y;
    }
    !different
}

// Writes a byte at the places of row k that are ones of a word.
fn write_ones(table: &mut [u8], k: usize, ones: u32, byte: u8)
    requires within { (k < 2048) × (table_size ≤ length table.old) }
    ensures written { OnesWritten table.old table.new k ones byte }
{
    for j in Ones(ones) {
        table[k * 32 + j] = byte;
    }
}

// Merges row k, after the rows before it.
fn merge_row(old: &[u8], new: &[u8], table: &mut [u8], k: usize)
    requires within { (k < 2048) × (bits_size ≤ length old.now) × (bits_size ≤ length new.now)
        × (table_size ≤ length table.old) }
    ensures merged { (before : List ℕ) → Merges old.now new.now before
        → RowsMerged new.now k before table.old
        → RowsMerged new.now (k + 1) before table.new }
    ensures long { length table.new ≡ length table.old }
{
    let pending = bits::table::pending_row(new, k) & !bits::table::pending_row(old, k);
    let done = bits::table::done_row(new, k) & !bits::table::done_row(old, k);
    write_ones(table, k, pending, 1);
    write_ones(table, k, done, 2);
}

// The bytes of the 32 rows of a part in a half.
fn part(bits: &[u8], half: Half, n: usize) -> &[u8]
    requires within { (n < 64) × (bits_size ≤ length bits.now) }
    ensures part { result.now ≡ slice_range bits.now (number_of half * half_size + n * 128)
        (number_of half * half_size + n * 128 + 128) }
{
    let at = half.begin() + n * PART_BYTES;
    &bits[at..at + PART_BYTES]
}

// Whether two bit tables agree in the 32 rows of a part, in both halves.
fn is_part_same(old: &[u8], new: &[u8], n: usize) -> bool
    requires within { (n < 64) × (bits_size ≤ length old.now) × (bits_size ≤ length new.now) }
    ensures same { result ≡ true → PartSame old.now new.now n }
{
    is_same(part(old, Half::Pending, n), part(new, Half::Pending, n))
        && is_same(part(old, Half::Done, n), part(new, Half::Done, n))
}

// Merges the 32 rows of a part, after the parts before it.
fn merge_part(old: &[u8], new: &[u8], table: &mut [u8], n: usize)
    requires within { (n < 64) × (bits_size ≤ length old.now) × (bits_size ≤ length new.now)
        × (table_size ≤ length table.old) }
    ensures merged { (before : List ℕ) → Merges old.now new.now before
        → RowsMerged new.now (n * 32) before table.old
        → RowsMerged new.now ((n + 1) * 32) before table.new }
    ensures long { length table.new ≡ length table.old }
{
    if is_part_same(old, new, n) {
        return;
    }
    for k in n * 32..n * 32 + 32 {
        merge_row(old, new, table, k);
    }
}

// Merges what new bits say into a table that says what old ones do.
pub fn merge(old: &[u8], new: &[u8], table: &mut [u8])
    requires long { (bits_size ≤ length old.now) × (bits_size ≤ length new.now)
        × (table_size ≤ length table.old) }
    requires merges { Merges old.now new.now table.old }
    ensures merged { table.new ≡ rewritten (bit_statuses new.now) table.old }
{
    for n in 0..HALF_PARTS {
        merge_part(old, new, table, n);
    }
}
