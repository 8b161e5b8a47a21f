// Binarize, for every input.
ghost use Rattle.std.specs.Prelude.{◌≡◌, true, ◌≤◌};
ghost use Rattle.job.specs.Records.{or_else};
ghost use Rattle.job.specs.Inside.Walk.{missing_by};
ghost use Rattle.job.specs.Refusals.{checked_of};
ghost use Rattle.long_jobs.specs.Operation.{size_check_lem, binarize_of, binarize_leaves, binarized_of};

use crate::{WRITTEN_BYTES, walk};
use job::{Cause, Checked, Refusal, Tally};
use long_records::{RECORD_BYTES, check};

// 2 for more bytes written than a job may have, then 13 for a buffer that they do not fit into.
#[tactic(auto, unfolding(long_jobs::specs::Operation::size_check_lem))]
fn size_check(count: usize, room: usize) -> Checked
    requires few { count ≤ 4352 }
    ensures checked { checked_of result ≡ size_check_lem count room }
{
    let needed = 4 * count;
    if job::JOB_BYTES < needed {
        return Err(Refusal {
            cause: Cause::TooLong,
            place: needed,
        });
    }
    records::write::room_check(count, room)
}

// The checks after the second walk, by what the records count to and how many they are: 8, 9, 2 and 13.
#[tactic(auto, using(job::proofs::Refusals::refused_first))]
fn last_check(seen: Tally, records: usize, count: usize, room: usize) -> Checked
    requires few { count ≤ 4352 }
    ensures checked { checked_of result ≡ or_else (missing_by true seen records) (size_check_lem count room) }
{
    checks::check::missing_kind(seen, true, records)?;
    size_check(count, room)
}

// Writes a long job with long bodies as an ordinary job: how many records. They are collected apart, so that a refused
// call leaves the buffer as it was.
pub fn binarize(source: &[u8], out: &mut [u8]) -> Result<usize, Refusal>
    ensures left { binarize_leaves (binarized_of result) out.new ≡ binarize_of source.now out.old }
{
    check::long_check(source)?;
    let mut written = [0u8; WRITTEN_BYTES];
    let count = walk::walk(source, &mut written)?;
    let seen = check::count_all(source);
    last_check(seen, source.len() / RECORD_BYTES, count, out.len())?;
    let end = 4 * count;
    out[..end].copy_from_slice(&written[..end]);
    Ok(count)
}
