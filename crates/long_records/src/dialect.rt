// The records of a long job: twelve bytes each.
ghost use Rattle.std.specs.Prelude.{◌≡◌, ◌<◌, length};
ghost use Rattle.long_jobs.specs.Inside.Parts.{short_rule_lem};
ghost use Rattle.long_jobs.specs.Dialect.{long_records_lem, is_long_lem, body_length_lem, body_of, short_of, padding_of, all_below};

use crate::{BODY_SYMBOLS, LongRecord, RECORD_BYTES};
use job::JobRecord;

// The records of a long job. Up to eleven bytes past the last whole record are none.
#[tactic(auto, using(long_jobs::proofs::LongRecords::in_chunks))]
pub fn records(source: &[u8]) -> &[LongRecord]
    ensures records { result.now ≡ long_records_lem source.now }
{
    let (whole, _) = source.as_chunks::<RECORD_BYTES>();
    whole
}

// Whether a record has a long body.
pub fn is_long(bytes: &LongRecord) -> bool
    ensures says { result ≡ is_long_lem bytes.now }
{
    bytes[0] == b'L'
}

// The record of a job in the first four bytes.
pub fn short_record(bytes: &LongRecord) -> JobRecord
    ensures record { result ≡ short_of bytes.now }
{
    JobRecord {
        kind: bytes[0],
        first: bytes[1],
        second: bytes[2],
        third: bytes[3],
    }
}

// How many symbols the body has, at most eight.
fn body_length(bytes: &LongRecord) -> usize
    ensures length { result ≡ body_length_lem bytes.now }
{
    usize::from(bytes[2]).min(BODY_SYMBOLS)
}

// The symbols of the body.
pub fn body(bytes: &LongRecord) -> &[u8]
    ensures body { result.now ≡ body_of bytes.now }
{
    &bytes[3..3 + body_length(bytes)]
}

// What stands past the body or past the four bytes.
pub fn padding(bytes: &LongRecord) -> &[u8]
    ensures padding { result.now ≡ padding_of bytes.now }
{
    if is_long(bytes) {
        &bytes[3 + body_length(bytes)..]
    } else {
        &bytes[4..]
    }
}

// Whether each byte is below a bound.
pub fn all_below(bytes: &[u8], bound: u8) -> bool
    ensures says { result ≡ all_below bound bytes.now }
{
    bytes.iter().all(|b| *b < bound)
}

// The rule of a body of none or one.
pub fn short_rule(head: u8, body: &[u8]) -> JobRecord
    requires short { length body.now < 2 }
    ensures rule { result ≡ short_rule_lem head body.now }
{
    let (kind, second) = match body.first() {
        None => (b'E', 0),
        Some(symbol) => (b'U', *symbol),
    };
    JobRecord {
        kind,
        first: head,
        second,
        third: 0,
    }
}
