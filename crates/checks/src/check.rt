// The checks of a job, refusals 1 to 9.
ghost use Rattle.std.specs.Prelude.{◌≡◌, [], ◌<◌, ◌≤◌, ◌%◌, length};
ghost use Rattle.job.specs.Format.{field_classes, records_of};
ghost use Rattle.job.specs.Records.{refused, or_else, first_fault, length_check_lem};
ghost use Rattle.job.specs.Check.{job_format, check_of, missing, record_place};
ghost use Rattle.job.specs.Refusals.{number_of, fault_number, refused_by, checked_of};
ghost use Rattle.job.specs.Inside.Walk.{form_fault_lem, is_second_by, order_fault_lem, counted, missing_by, mark_of};

use job::{Cause, Checked, JOB_BYTES, JobRecord, Kind, Limits, MARKS, Refusal, Tally};
use records::format;

// 3 or 4 where the record itself is at fault. Inlined, as it is asked of each record.
#[inline(always)]
#[tactic(auto, unfolding(job::specs::Inside::Walk::form_fault_lem))]
pub fn form_fault(r: JobRecord) -> Result<(), Cause>
    ensures fault { fault_number result ≡ form_fault_lem r }
{
    let kind = Kind::try_from(r.kind)?;
    match format::bad_field(kind, r) {
        Some(_) => Err(Cause::FieldOutsideClass),
        None => Ok(()),
    }
}

// Whether a record is a second S or I after those that were counted.
#[tactic(auto, unfolding(job::specs::Inside::Walk::is_second_by))]
pub fn is_second(seen: Tally, r: JobRecord) -> bool
    ensures says { result ≡ is_second_by seen r }
{
    match r.kind {
        b'S' => 0 < seen.starts,
        b'I' => 0 < seen.initials,
        _ => false,
    }
}

// 6 or 7 where the record is one too many after those that were counted.
#[tactic(auto, unfolding(job::specs::Inside::Walk::order_fault_lem))]
pub fn order_fault(limits: Limits, seen: Tally, r: JobRecord) -> Result<(), Cause>
    ensures fault { fault_number result ≡ order_fault_lem limits seen r }
{
    if is_second(seen, r) {
        return Err(Cause::Second);
    }
    if format::is_rule(r) && limits.rules <= seen.rules {
        return Err(Cause::TooManyRules);
    }
    Ok(())
}

// The tally with one record more.
#[tactic(auto, unfolding(job::specs::Inside::Walk::counted))]
pub fn count_in(seen: Tally, r: JobRecord) -> Tally
    requires few { (seen.rules < 4096) × (seen.starts < 4096) × (seen.initials < 4096) }
    ensures counted { result ≡ counted seen r }
{
    Tally {
        rules: seen.rules + usize::from(format::is_rule(r)),
        starts: seen.starts + usize::from(r.kind == b'S'),
        initials: seen.initials + usize::from(r.kind == b'I'),
    }
}

// Refusals 8 and 9, by what was counted in all records.
#[tactic(auto, unfolding(job::specs::Inside::Walk::missing_by))]
pub fn missing_kind(seen: Tally, needed: bool, count: usize) -> Checked
    ensures missing { checked_of result ≡ missing_by needed seen count }
{
    if seen.starts == 0 {
        return Err(Refusal {
            cause: Cause::NoStart,
            place: count,
        });
    }
    if needed && seen.initials == 0 {
        return Err(Refusal {
            cause: Cause::NoInitial,
            place: count,
        });
    }
    Ok(())
}

// The refusal of a record.
#[tactic(auto, unfolding(job::specs::Check::record_place))]
fn refuse(cause: Cause, index: usize, r: JobRecord) -> Refusal
    ensures refused { refused_by result ≡ refused (number_of cause) (record_place (number_of cause) index r) }
{
    Refusal {
        cause,
        place: index,
    }
}

// The number at which a record is marked once it is met. The transitions of up to seven labels in a row all have their
// own: 1033 is past the 1024 pairs of states, and seven times that is below 8192.
fn mark_of(r: JobRecord) -> usize
    ensures mark { (result ≡ mark_of r) × (result < 8192) }
{
    (r.first as usize * 32 + r.second as usize * 1033 + r.third as usize) % MARKS
}

// Refusals 3 to 9 on the records of a job of whole records. A record that may have been met, as its mark is set, is
// compared with all before it; at a match the search stops at once, out of both walks.
pub fn check_records(job: &[u8], limits: Limits, needed: bool) -> Checked
    requires whole { (length job.now ≤ 16384) × (length job.now % 4 ≡ 0) }
    ensures checked { checked_of result ≡ or_else (first_fault (job_format field_classes limits) [] (records_of job.now))
        (missing needed (records_of job.now)) }
{
    let count = job.len() / 4;
    let mut seen = Tally {
        rules: 0,
        starts: 0,
        initials: 0,
    };
    let mut marks = [false; MARKS];
    let mut repeated = None;
    'walk: for i in 0..count {
        let r = format::record_at(job, i);
        if let Err(cause) = form_fault(r) {
            return Err(refuse(cause, i, r));
        }
        let mark = mark_of(r);
        let met = if marks[mark] { i } else { 0 };
        for j in 0..met {
            if format::alike(job, j, r) {
                repeated = Some(refuse(Cause::Repeated, i, r));
                break 'walk;
            }
        }
        if let Err(cause) = order_fault(limits, seen, r) {
            return Err(refuse(cause, i, r));
        }
        seen = count_in(seen, r);
        marks[mark] = true;
    }
    match repeated {
        Some(refusal) => Err(refusal),
        None => missing_kind(seen, needed, count),
    }
}

// Refusals 2 and 1 of n bytes, by the most bytes and the bytes of a record.
pub fn length_check(n: usize, most: usize, size: usize) -> Checked
    requires some { 0 < size }
    ensures checked { checked_of result ≡ length_check_lem most size n }
{
    if most < n {
        return Err(Refusal {
            cause: Cause::TooLong,
            place: n,
        });
    }
    if n % size != 0 {
        return Err(Refusal {
            cause: Cause::PartialRecord,
            place: n / size,
        });
    }
    Ok(())
}

// All checks of a job's bytes. `needed`: whether an I record is needed.
#[tactic(auto, unfolding(job::specs::Check::check_of, job::specs::Records::bytes_check), using(job::proofs::RecordChecks::length_passed, job::proofs::Refusals::refused_first))]
pub fn check(job: &[u8], limits: Limits, needed: bool) -> Checked
    ensures checked { checked_of result ≡ check_of field_classes limits needed job.now }
{
    length_check(job.len(), JOB_BYTES, 4)?;
    check_records(job, limits, needed)
}
