// Ask, on bytes and on bits, for every input.
ghost use Rattle.std.specs.Prelude.{◌≡◌, ◌≤◌, length, replicate};
ghost use Rattle.job.specs.Check.{job_check, short_buffer_lem, or_else};
ghost use Rattle.job.specs.Refusals.{checked_of};
ghost use Rattle.forms.specs.Answers.{asked_of};
ghost use Rattle.machine.specs.Table.{table_size, done_in, done_at_lem};
ghost use Rattle.bit_machine.specs.BitTable.{bits_size, bit_statuses};
ghost use Rattle.forms.specs.Acceptance.{SymbolsFit};
ghost use Rattle.forms.specs.Operations.{form_check_lem, ask_checks, ask_of, ask_bits_of};
ghost use Rattle.forms.specs.Inside.AcceptanceParts.{AgreeOn};

use crate::acceptance;
use bits::BITS_BYTES;
use checks::call;
use job::{Cause, Checked, Level, Refusal};

// Refusals 12 and 11 of a form.
pub fn form_check(form: &[u8]) -> Checked
    ensures checked { checked_of result ≡ form_check_lem form.now }
{
    if job::FORM_SYMBOLS < form.len() {
        return Err(Refusal {
            cause: Cause::FormTooLong,
            place: form.len(),
        });
    }
    match form.iter().position(|symbol| !grammar::is_symbol(*symbol)) {
        Some(place) => Err(Refusal {
            cause: Cause::NoSymbol,
            place,
        }),
        None => Ok(()),
    }
}

// The checks of ask: a lent table of a length where another is needed, the job, the form.
pub fn ask_check(length: usize, needed: usize, job: &[u8], form: &[u8]) -> Checked
    ensures checked { checked_of result ≡ ask_checks job_check (short_buffer_lem length needed 1) job.now form.now }
{
    call::short_buffer(length, needed, 1)?;
    call::job_check(job, Level::Full, true)?;
    form_check(form)
}

// Packs the rows of a form's symbols into bits that are all 0.
fn pack_form(table: &[u8], form: &[u8], bits: &mut [u8])
    requires fits { (table_size ≤ length table.now) × SymbolsFit form.now }
    requires zeros { bits.old ≡ replicate 16384 0 }
    ensures long { length bits.new ≡ bits_size }
    ensures agree { AgreeOn (done_in (bit_statuses bits.new)) (done_at_lem table.now) form.now }
{
    for symbol in form {
        packing::pack::pack_symbol(table, bits, usize::from(*symbol));
    }
}

// Whether a form is accepted on a lent table, which is only read.
#[tactic(auto, unfolding(forms::specs::Operations::ask_by, forms::specs::Operations::ask_check_by), using(job::proofs::Refusals::is_number, forms::proofs::FormChecks::ask_passed, forms::proofs::AskAnswers::none_refused, forms::proofs::AskAnswers::accepts_on_lem))]
pub fn ask(job: &[u8], table: &[u8], form: &[u8]) -> Result<bool, Refusal>
    ensures answer { asked_of result ≡ ask_of job.now table.now form.now }
{
    ask_check(table.len(), job::TABLE_BYTES, job, form)?;
    let mut bits = [0u8; BITS_BYTES];
    pack_form(table, form, &mut bits);
    Ok(acceptance::is_accepted(job, &bits, form))
}

// The same on a lent bit table.
#[tactic(auto, unfolding(forms::specs::Operations::ask_bits_by, forms::specs::Operations::ask_bits_check_by), using(job::proofs::Refusals::is_number, forms::proofs::FormChecks::ask_passed, forms::proofs::AskAnswers::none_refused))]
pub fn ask_bits(job: &[u8], bits: &[u8], form: &[u8]) -> Result<bool, Refusal>
    ensures answer { asked_of result ≡ ask_bits_of job.now bits.now form.now }
{
    ask_check(bits.len(), BITS_BYTES, job, form)?;
    Ok(acceptance::is_accepted(job, bits, form))
}
