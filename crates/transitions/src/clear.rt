// What start clears before it writes, beside the table.
ghost use Rattle.std.specs.Prelude.{◌≡◌, ◌≤◌, length};
ghost use Rattle.job.specs.Written.{cleared};
ghost use Rattle.machine.specs.Table.{reasons_size};

use job::REASON_NUMBERS;

// Makes the first 32,768 reasons 0.
pub fn clear_reasons(reasons: &mut [u32])
    requires long { reasons_size ≤ length reasons.old }
    ensures cleared { reasons.new ≡ cleared reasons_size reasons.old }
{
    reasons[..REASON_NUMBERS].fill(0);
}
