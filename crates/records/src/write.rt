// Writing records to the front of a buffer: room for them, and a start symbol with its rules.
ghost use Rattle.std.specs.Prelude.{◌≡◌, map, ◌∷◌, ◌++◌, ◌+◌, ◌*◌, ◌≤◌, length, drop};
ghost use Rattle.job.specs.Format.{bytes_of};
ghost use Rattle.job.specs.Refusals.{checked_of};
ghost use Rattle.job.specs.Check.{room_check};
ghost use Rattle.job.specs.Job.{start_record};
ghost use Rattle.job.specs.Inside.Keys.{record_of_key};

use crate::{format, rules};
use job::{Cause, Checked, JobRecord, Refusal};

// 13 where a buffer has no room for so many records.
pub fn room_check(records: usize, room: usize) -> Checked
    requires few { records ≤ 65536 }
    ensures checked { checked_of result ≡ room_check records room }
{
    if room < 4 * records {
        return Err(Refusal {
            cause: Cause::NoRoom,
            place: records,
        });
    }
    Ok(())
}

// Writes S and, behind it, the rules of some sort keys.
pub fn write_grammar(start: u8, keys: &[u32], out: &mut [u8])
    requires room { 4 * length keys.now + 4 ≤ length out.old }
    ensures written { out.new ≡ bytes_of (start_record start ∷ map record_of_key keys.now)
        ++ drop (4 * length keys.now + 4) out.old }
{
    let s = JobRecord {
        kind: b'S',
        first: start,
        second: 0,
        third: 0,
    };
    format::put_record(out, 0, s);
    for (k, key) in keys.iter().enumerate() {
        format::put_record(out, k + 1, rules::record_of(*key));
    }
}
