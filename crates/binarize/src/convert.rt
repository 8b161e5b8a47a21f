// What each record of a long job is written as. The free variables have zeros behind them, so that taking one needs no
// test; whether too many were taken is tested after the record.
ghost use Rattle.std.specs.Prelude.{◌≡◌, ◌<◌, ◌≤◌, length};
ghost use Rattle.long_jobs.specs.Convert.{split, convert};
ghost use Rattle.long_jobs.specs.Walk.{next_free};
ghost use Rattle.long_jobs.specs.Inside.Parts.{conversion_of, Room, Reached};

use crate::WRITTEN_BYTES;
use job::{JobRecord, SYMBOLS};
use long_jobs::Progress;
use long_records::{LongRecord, dialect};

// Splits a body of two or more: each pair rule but the last takes a variable for the rest.
#[tactic(auto, using(long_jobs::proofs::ConversionSteps::steps))]
fn split_long(
    body: &[u8],
    head: u8,
    free: &[u8; SYMBOLS],
    written: &mut [u8; WRITTEN_BYTES],
    p: Progress,
) -> Progress
    requires long { (2 ≤ length body.now) × (length body.now ≤ 8) }
    requires room { Room p written.old }
    ensures reached { Reached p result written.new
        (split (next_free free.now) head body.now (conversion_of p written.old)) }
{
    let last = body.len() - 2;
    let mut variable = head;
    for k in 0..last {
        let tail = free[p.taken + k];
        let r = JobRecord {
            kind: b'P',
            first: variable,
            second: body[k],
            third: tail,
        };
        records::format::put_record(written, p.count + k, r);
        variable = tail;
    }
    let r = JobRecord {
        kind: b'P',
        first: variable,
        second: body[last],
        third: body[last + 1],
    };
    records::format::put_record(written, p.count + last, r);
    Progress {
        taken: p.taken + last,
        count: p.count + last + 1,
    }
}

// Writes what a record of a long job is written as.
#[tactic(auto, using(long_jobs::proofs::ConversionSteps::steps))]
pub fn convert(
    bytes: &LongRecord,
    free: &[u8; SYMBOLS],
    written: &mut [u8; WRITTEN_BYTES],
    p: Progress,
) -> Progress
    requires room { Room p written.old }
    ensures reached { Reached p result written.new
        (convert (next_free free.now) bytes.now (conversion_of p written.old)) }
{
    let r = if dialect::is_long(bytes) {
        let body = dialect::body(bytes);
        if 2 <= body.len() {
            return split_long(body, bytes[1], free, written, p);
        }
        dialect::short_rule(bytes[1], body)
    } else {
        dialect::short_record(bytes)
    };
    records::format::put_record(written, p.count, r);
    Progress {
        taken: p.taken,
        count: p.count + 1,
    }
}
