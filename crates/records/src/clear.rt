// Clearing the front of a lent table.
ghost use Rattle.std.specs.Prelude.{◌≡◌, ◌≤◌, length};
ghost use Rattle.job.specs.Written.{cleared};

use job::TABLE_BYTES;

// Makes the first n bytes 0.
pub fn clear_front(table: &mut [u8], n: usize)
    requires long { n ≤ length table.old }
    ensures cleared { table.new ≡ cleared n table.old }
{
    table[..n].fill(0);
}

// Makes the first 65,536 bytes 0.
pub fn clear_table(table: &mut [u8])
    requires long { 65536 ≤ length table.old }
    ensures cleared { table.new ≡ cleared 65536 table.old }
{
    clear_front(table, TABLE_BYTES)
}
