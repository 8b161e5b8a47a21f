// What the records of a job say: the number of states, the start symbol, the initial and the final states.
ghost use Rattle.std.specs.Prelude.{◌≡◌, ◌+◌, ◌<◌};
ghost use Rattle.job.specs.Format.{records_of, has};
ghost use Rattle.job.specs.Job.{field_of, states_in_lem, states_of};

use job::JobRecord;
use records::format;

// One more than the largest state in a record, 0 if it names none.
fn states_in(r: JobRecord) -> usize
    ensures states { result ≡ states_in_lem r }
{
    let first = usize::from(r.first);
    let third = usize::from(r.third);
    match r.kind {
        b'T' => first.max(third) + 1,
        b'I' | b'F' => first + 1,
        _ => 0,
    }
}

// The number of states, in one pass: one more than the largest state in the T, I and F records, 0 if there is none.
pub fn state_count(job: &[u8]) -> usize
    ensures states { result ≡ states_of (records_of job.now) }
{
    let mut states = 0;
    for k in 0..job.len() / 4 {
        states = states.max(states_in(format::record_at(job, k)));
    }
    states
}

// Field 1 of the first record of a kind, 0 where there is none: the start symbol for S, the initial state for I.
pub fn field_of(job: &[u8], kind: u8) -> u8
    ensures field { result ≡ field_of kind (records_of job.now) }
{
    for i in 0..job.len() / 4 {
        let r = format::record_at(job, i);
        if r.kind == kind {
            return r.first;
        }
    }
    0
}

// Whether a record stands in the job: a given transition, a final state.
pub fn has_record(job: &[u8], r: JobRecord) -> bool
    ensures says { result ≡ has (records_of job.now) r }
{
    format::is_among(job, job.len() / 4, r)
}
