// The report, for every input.
ghost use Rattle.std.specs.Prelude.{◌≡◌, false};
ghost use Rattle.job.specs.Refusals.{refused_by, checked_of};
ghost use Rattle.machine.specs.Table.{lent_of};
ghost use Rattle.reports.specs.Operation.{report_check_lem, refused_report, report_leaves, report_of};

use bits::BITS_BYTES;
use checks::call;
use job::{CODE_BYTES, Checked, Level, Refusal, TABLE_BYTES};
use printing::Report;
use transitions::MOST_STEPS;
use verdicts::Judged;

// The checks of the report: short buffers, then the job's.
#[tactic(auto, unfolding(reports::specs::Operation::report_check_lem), using(job::proofs::Refusals::refused_first))]
fn report_check(job: &[u8], table: &[u8], reasons: &[u32], codes: &[u8]) -> Checked
    ensures checked { checked_of result ≡ report_check_lem job.now
        (lent_of table.now reasons.now) codes.now }
{
    call::short_lent(table.len(), TABLE_BYTES, reasons.len())?;
    call::short_buffer(codes.len(), CODE_BYTES, 3)?;
    call::job_check(job, Level::Full, true)
}

// The report on a refused call.
fn refused(refusal: Refusal) -> Report
    ensures answer { result ≡ refused_report (refused_by refusal) }
{
    Report {
        number: refusal.cause.number() as usize,
        place: refusal.place,
        states: 0,
        examined: 0,
        joins: 0,
        start: false,
        empty: false,
        growing: false,
    }
}

// Runs a job to the end, asks the start symbol, and gives the verdicts, which leave the table 0.
pub fn report(job: &[u8], table: &mut [u8], reasons: &mut [u32], codes: &mut [u8]) -> Report
    ensures outcome { report_leaves result (lent_of table.new reasons.new) codes.new
        ≡ report_of job.now (lent_of table.old reasons.old) codes.old }
{
    if let Err(refusal) = report_check(job, table, reasons, codes) {
        return refused(refusal);
    }
    let mut bits = [0u8; BITS_BYTES];
    let run = byte_table::run::run_from_start(job, &mut bits, table, reasons, MOST_STEPS);
    let form = [lookup::facts::field_of(job, b'S')];
    let start = asking::acceptance::is_accepted(job, &bits, &form);
    let none = Judged {
        empty: false,
        growing: false,
    };
    let judged = judging::operation::verdicts(job, table, codes).unwrap_or(none);
    Report {
        number: 0,
        place: 0,
        states: run.states,
        examined: run.ended.steps,
        joins: run.ended.meetings,
        start,
        empty: judged.empty,
        growing: judged.growing,
    }
}
