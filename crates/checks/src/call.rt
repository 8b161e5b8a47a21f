// The checks of a call: its lent buffers, refusal 10, and its job, by the level of its key.
ghost use Rattle.std.specs.Prelude.{◌≡◌};
ghost use Rattle.job.specs.Check.{limits_of_lem, short_buffer_lem, or_else, level_check};
ghost use Rattle.job.specs.Refusals.{checked_of};

use crate::check;
use job::{Cause, Checked, Level, Limits, REASON_NUMBERS, RULES, Refusal};

// The limits of a level.
pub fn limits_of(level: Level) -> Limits
    ensures limits { result ≡ limits_of_lem level }
{
    match level {
        Level::Full => Limits { rules: RULES },
    }
}

// 10 where a lent buffer is shorter than is needed.
pub fn short_buffer(long: usize, needed: usize, place: usize) -> Checked
    ensures checked { checked_of result ≡ short_buffer_lem long needed place }
{
    if long < needed {
        return Err(Refusal {
            cause: Cause::ShortBuffer,
            place,
        });
    }
    Ok(())
}

// 10 for a table of which so much is needed and for reasons, by their lengths.
pub fn short_lent(table: usize, needed: usize, reasons: usize) -> Checked
    ensures checked { checked_of result ≡ or_else (short_buffer_lem table needed 1) (short_buffer_lem reasons 32768 2) }
{
    short_buffer(table, needed, 1)?;
    short_buffer(reasons, REASON_NUMBERS, 2)
}

// The checks of a job at a level. `needed`: whether an I record is needed.
pub fn job_check(job: &[u8], level: Level, needed: bool) -> Checked
    ensures checked { checked_of result ≡ level_check level needed job.now }
{
    check::check(job, limits_of(level), needed)
}
