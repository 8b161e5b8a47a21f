// The first walk over a long job: refusals 2, 1, 3, 4, 15 and 6; and what its records count to.
ghost use Rattle.std.specs.Prelude.{◌≡◌, true, false, [], map, ◌≤◌, length, MatchResult};
ghost use Rattle.job.specs.Records.{first_fault};
ghost use Rattle.job.specs.Refusals.{fault_number, checked_of};
ghost use Rattle.job.specs.Inside.Walk.{tally_of};
ghost use Rattle.long_jobs.specs.Dialect.{long_records_lem, short_of};
ghost use Rattle.long_jobs.specs.Check.{is_unknown_lem, is_misfit_lem, is_ill_padded_lem, form_fault_lem, long_format, long_check_lem};
ghost use Rattle.long_jobs.specs.Inside.Parts.{fault_after};

use crate::{BODY_SYMBOLS, LONG_JOB_BYTES, LongRecord, RECORD_BYTES, dialect};
use job::{Cause, Checked, Kind, NoKind, Refusal, SYMBOLS, Tally};
use records::format;

// 4: a head, a symbol or a field is outside its class. An error, 3, where the kind byte is neither L nor one of a job's.
#[tactic(auto, unfolding(long_jobs::specs::Check::is_misfit_lem))]
fn is_misfit(bytes: &LongRecord) -> Result<bool, NoKind>
    ensures says { MatchResult result
        (λ misfit. (is_unknown_lem bytes.now ≡ false) × (misfit ≡ is_misfit_lem bytes.now))
        (λ _. is_unknown_lem bytes.now ≡ true) }
{
    if dialect::is_long(bytes) {
        let fits = grammar::is_variable(bytes[1])
            && dialect::all_below(dialect::body(bytes), SYMBOLS as u8);
        return Ok(!fits);
    }
    let kind = Kind::try_from(bytes[0])?;
    Ok(format::bad_field(kind, dialect::short_record(bytes)).is_some())
}

// 15: a length over 8, or a padding or closing byte that is not zero.
#[tactic(auto, unfolding(long_jobs::specs::Check::is_ill_padded_lem))]
fn is_ill_padded(bytes: &LongRecord) -> bool
    ensures says { result ≡ is_ill_padded_lem bytes.now }
{
    dialect::is_long(bytes) && BODY_SYMBOLS < usize::from(bytes[2])
        || !dialect::all_below(dialect::padding(bytes), 1)
}

// 3, 4 or 15 where the record itself is at fault.
#[tactic(auto, unfolding(long_jobs::specs::Check::form_fault_lem))]
fn form_fault(bytes: &LongRecord) -> Result<(), Cause>
    ensures fault { fault_number result ≡ form_fault_lem bytes.now }
{
    if is_misfit(bytes)? {
        return Err(Cause::FieldOutsideClass);
    }
    if is_ill_padded(bytes) {
        return Err(Cause::IllPadded);
    }
    Ok(())
}

// 3, 4, 15 or 6 where the record is at fault after those that were counted.
#[tactic(auto, unfolding(long_jobs::specs::Inside::Parts::fault_after), using(job::proofs::Refusals::is_number))]
fn record_fault(bytes: &LongRecord, seen: Tally) -> Result<(), Cause>
    ensures fault { fault_number result ≡ fault_after seen bytes.now }
{
    form_fault(bytes)?;
    if checks::check::is_second(seen, dialect::short_record(bytes)) {
        return Err(Cause::Second);
    }
    Ok(())
}

// The first walk.
#[tactic(auto, using(long_jobs::proofs::FirstWalkSteps::steps))]
fn check_records(records: &[LongRecord]) -> Checked
    requires few { length records.now ≤ 4096 }
    ensures checked { checked_of result ≡ first_fault long_format [] records.now }
{
    let mut seen = Tally {
        rules: 0,
        starts: 0,
        initials: 0,
    };
    for (i, bytes) in records.iter().enumerate() {
        if let Err(cause) = record_fault(bytes, seen) {
            return Err(Refusal { cause, place: i });
        }
        seen = checks::check::count_in(seen, dialect::short_record(bytes));
    }
    Ok(())
}

// The checks of a long job's bytes.
#[tactic(auto, unfolding(job::specs::Records::bytes_check), using(job::proofs::RecordChecks::length_passed, job::proofs::Refusals::refused_first, long_jobs::proofs::LongRecords::few_records))]
pub fn long_check(source: &[u8]) -> Checked
    ensures checked { checked_of result ≡ long_check_lem source.now }
{
    checks::check::length_check(source.len(), LONG_JOB_BYTES, RECORD_BYTES)?;
    check_records(dialect::records(source))
}

// What all records count to.
#[tactic(auto, using(long_jobs::proofs::FirstWalkSteps::steps))]
pub fn count_all(source: &[u8]) -> Tally
    requires within { length source.now ≤ 49152 }
    ensures counted { result ≡ tally_of (map short_of (long_records_lem source.now)) }
{
    let mut seen = Tally {
        rules: 0,
        starts: 0,
        initials: 0,
    };
    for bytes in dialect::records(source) {
        seen = checks::check::count_in(seen, dialect::short_record(bytes));
    }
    seen
}
