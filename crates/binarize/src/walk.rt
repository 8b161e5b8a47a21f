// The second walk over a long job: it converts each record, and refuses by 14, 5 and 7.
ghost use Rattle.std.specs.Prelude.{◌≡◌, ◌<◌, ◌≤◌, ◌%◌, length, take, IfOk};
ghost use Rattle.job.specs.Format.{records_of};
ghost use Rattle.job.specs.Check.{count_rules};
ghost use Rattle.job.specs.Refusals.{fault_number};
ghost use Rattle.long_jobs.specs.Dialect.{long_records_lem};
ghost use Rattle.long_jobs.specs.Convert.{convert};
ghost use Rattle.long_jobs.specs.Walk.{fault_from, next_free};
ghost use Rattle.long_jobs.specs.Inside.Parts.{conversion_of, Underway, Stepped, fault_of, WalkedTo};

use crate::fresh::{self, Free};
use crate::{WRITTEN_BYTES, convert};
use job::{Cause, JobRecord, Refusal};
use long_jobs::{Progress, WalkState};
use long_records::{LongRecord, dialect};
use records::format;

// 5 or 7 where the record stands already or is one rule too many.
fn written_fault(seen: &[u8], rules: usize, r: JobRecord) -> Result<(), Cause>
    ensures fault { fault_number result ≡ fault_of (records_of seen.now) rules r }
{
    if lookup::facts::has_record(seen, r) {
        return Err(Cause::Repeated);
    }
    if format::is_rule(r) && job::RULES <= rules {
        return Err(Cause::TooManyRules);
    }
    Ok(())
}

// 5 and 7 for the records from one on, after the rules of those before it; else the number of all rules.
#[tactic(auto, using(long_jobs::proofs::WrittenFault::steps))]
fn check_from(records: &[u8], from: usize, rules: usize) -> Result<usize, Cause>
    requires whole { (length records.now % 4 ≡ 0) × (from ≤ length (records_of records.now)) }
    requires counted { (rules ≡ count_rules (take from (records_of records.now))) × (rules ≤ 256) }
    ensures fault { fault_number result ≡ fault_from from (records_of records.now) }
    ensures counted { IfOk result (λ all. (all ≡ count_rules (records_of records.now)) × (all ≤ 256)) }
{
    let mut rules = rules;
    for j in from..records.len() / 4 {
        let r = format::record_at(records, j);
        written_fault(&records[..4 * j], rules, r)?;
        rules += usize::from(format::is_rule(r));
    }
    Ok(rules)
}

// Converts record i.
#[tactic(auto, using(long_jobs::proofs::WalkSteps::steps))]
fn convert_next(
    bytes: &LongRecord,
    free: &Free,
    written: &mut [u8; WRITTEN_BYTES],
    i: usize,
    s: WalkState,
) -> Result<WalkState, Refusal>
    requires early { i < 4096 }
    requires underway { Underway free.now.count i s written.old }
    ensures stepped { Stepped free.now.count i (conversion_of s.progress written.old)
        (convert (next_free free.now.variables) bytes.now (conversion_of s.progress written.old)) result written.new }
{
    let p = convert::convert(bytes, &free.variables, written, s.progress);
    if free.count < p.taken {
        return Err(Refusal {
            cause: Cause::TooFewVariables,
            place: i,
        });
    }
    match check_from(&written[..4 * p.count], s.progress.count, s.rules) {
        Ok(rules) => Ok(WalkState { progress: p, rules }),
        Err(cause) => Err(Refusal { cause, place: i }),
    }
}

// The whole walk: how many records are written. What is written until a refusal stays in the buffer.
#[tactic(auto, using(long_jobs::proofs::WalkSteps::steps))]
pub fn walk(source: &[u8], written: &mut [u8; WRITTEN_BYTES]) -> Result<usize, Refusal>
    requires within { length source.now ≤ 49152 }
    ensures walked { WalkedTo (long_records_lem source.now) result written.new }
{
    let free = fresh::free_in(source);
    let mut s = WalkState {
        progress: Progress { taken: 0, count: 0 },
        rules: 0,
    };
    for (i, bytes) in dialect::records(source).iter().enumerate() {
        s = convert_next(bytes, &free, written, i, s)?;
    }
    Ok(s.progress.count)
}
