// Counting the done places of a bit table.
ghost use Rattle.std.specs.Prelude.{◌≡◌, ◌≤◌, length};
ghost use Rattle.bit_machine.specs.BitTable.{bits_size, done_bits};

use crate::{Half, table};
use transitions::ROWS;

// The ones of the done half, word by word.
pub fn count_ones(bits: &[u8]) -> u64
    requires long { bits_size ≤ length bits.now }
    ensures counted { result ≡ done_bits bits.now }
{
    let mut sum = 0;
    for k in 0..ROWS {
        sum += u64::from(table::row(bits, Half::Done, k).count_ones());
    }
    sum
}
