// Explain, for every input.
#![tactic(auto)]

ghost use Rattle.std.specs.Prelude.{◌≡◌, ◌≤◌, length};
ghost use Rattle.job.specs.Job.{job_of};
ghost use Rattle.job.specs.Refusals.{checked_of};
ghost use Rattle.forms.specs.Answers.{explained_of};
ghost use Rattle.machine.specs.Table.{lent_of};
ghost use Rattle.bit_machine.specs.BitTable.{bits_size};
ghost use Rattle.forms.specs.Operations.{explain_check_lem, listed_for, explain_listed, explain_finished_lem, explain_of};
ghost use Rattle.forms.specs.Operations.{explain_leaves};
ghost use Rattle.forms.specs.Inside.AcceptanceParts.{FormFits};
ghost use Rattle.forms.specs.Inside.ExplainParts.{Explainable, BitsSay, OnRoute};

use asking::acceptance::Finish;
use asking::ask;
use bits::BITS_BYTES;
use job::{Cause, Checked, Refusal};

// The checks of explain but for 13.
#[tactic(auto, unfolding(forms::specs::Operations::explain_check_by), using(job::proofs::Refusals::refused_first))]
fn explain_check(job: &[u8], table: &[u8], reasons: &[u32], form: &[u8]) -> Checked
    ensures checked { checked_of result
        ≡ explain_check_lem job.now (lent_of table.now reasons.now) form.now }
{
    byte_table::operations::machine_check(job, table, reasons)?;
    ask::form_check(form)
}

// Lists why a form is accepted on a finished table. The first pass only counts, so that a listing that does not fit
// is left as it was.
fn list_accepted(
    job: &[u8],
    table: &mut [u8],
    reasons: &[u32],
    form: &[u8],
    places: &[u16; job::FORM_SYMBOLS],
    listing: &mut [u8],
) -> Result<Option<usize>, Refusal>
    requires able { Explainable job.now (lent_of table.old reasons.now) × FormFits form.now }
    requires accepted { OnRoute job.now table.old form.now places.now }
    ensures outcome { explain_leaves (explained_of result) (lent_of table.new reasons.now) listing.new
        ≡ explain_listed (job_of job.now).rules reasons.now
        (listed_for (job_of job.now) (lent_of table.old reasons.now) form.now)
        listing.old }
{
    let sorted = lookup::sorting::sorted_rules(job);
    let rules = sorted.as_slice();
    let n = form.len();
    let needed = listing::list_all(table, reasons, rules, places, n, listing, false);
    if listing.len() < 8 * needed {
        return Err(Refusal {
            cause: Cause::NoRoom,
            place: needed,
        });
    }
    listing::unmark(table);
    let records = listing::list_all(table, reasons, rules, places, n, listing, true);
    Ok(Some(records))
}

// Explains a form on a finished table, by bits that say what it says.
fn explain_finished(
    job: &[u8],
    bits: &[u8],
    table: &mut [u8],
    reasons: &[u32],
    form: &[u8],
    listing: &mut [u8],
) -> Result<Option<usize>, Refusal>
    requires able { Explainable job.now (lent_of table.old reasons.now) × FormFits form.now }
    requires alike { (bits_size ≤ length bits.now) × BitsSay bits.now table.old }
    ensures outcome { explain_leaves (explained_of result) (lent_of table.new reasons.now) listing.new
        ≡ explain_finished_lem (job_of job.now) (lent_of table.old reasons.now)
        form.now listing.old }
{
    let finish = Finish::by_job(job, bits, form);
    if !finish.accepts() {
        return Ok(None);
    }
    let places = finish.route();
    list_accepted(job, table, reasons, form, &places, listing)
}

// Starts, runs to the end, and lists why the form is accepted: the number of listing records, if it is.
pub fn explain(
    job: &[u8],
    table: &mut [u8],
    reasons: &mut [u32],
    form: &[u8],
    listing: &mut [u8],
) -> Result<Option<usize>, Refusal>
    ensures outcome { explain_leaves (explained_of result) (lent_of table.new reasons.new) listing.new
        ≡ explain_of job.now (lent_of table.old reasons.old)
        form.now listing.old }
{
    explain_check(job, table, reasons, form)?;
    let mut bits = [0u8; BITS_BYTES];
    byte_table::run::run_from_start(job, &mut bits, table, reasons, transitions::MOST_STEPS);
    explain_finished(job, &bits, table, reasons, form, listing)
}
