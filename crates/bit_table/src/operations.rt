// Start, advance and the done count on bits, for every input.
ghost use Rattle.std.specs.Prelude.{◌≡◌};
ghost use Rattle.machine.specs.Operations.{start_leaves, advance_leaves};
ghost use Rattle.machine.specs.Table.{lent_of};
ghost use Rattle.job.specs.Refusals.{checked_of};
ghost use Rattle.machine.specs.Answers.{started_of, advanced_of};
ghost use Rattle.bit_machine.specs.Answers.{counted_of};
ghost use Rattle.bit_machine.specs.Operations.{bits_check_lem, start_bits_of, advance_bits_of, done_count_of};

use bits::{BITS_BYTES, count};
use checks::call;
use job::{Checked, Level, Refusal};
use machine::Ended;
use saturation::run;
use starting::begin;

// The checks of start and advance: short buffers, then the job's.
#[tactic(auto, unfolding(bit_machine::specs::Operations::bits_check_by), using(job::proofs::Refusals::refused_first))]
fn bits_check(job: &[u8], bits: &[u8], reasons: &[u32]) -> Checked
    ensures checked { checked_of result
        ≡ bits_check_lem job.now (lent_of bits.now reasons.now) }
{
    call::short_lent(bits.len(), BITS_BYTES, reasons.len())?;
    call::job_check(job, Level::Full, true)
}

// Writes the bit table and the reasons that a job starts from, and answers its number of states.
#[tactic(auto, unfolding(bit_machine::specs::Operations::start_bits_by), using(bit_machine::proofs::RunChecks::bits_passed, job::proofs::Refusals::is_number))]
pub fn start(job: &[u8], bits: &mut [u8], reasons: &mut [u32]) -> Result<usize, Refusal>
    ensures outcome { start_leaves (started_of result) (lent_of bits.new reasons.new)
        ≡ start_bits_of job.now (lent_of bits.old reasons.old) }
{
    bits_check(job, bits, reasons)?;
    Ok(begin::begin(job, bits, reasons))
}

// Makes at most n steps on a bit table, whatever it holds.
#[tactic(auto, unfolding(bit_machine::specs::Operations::advance_bits_by), using(bit_machine::proofs::RunChecks::bits_passed, job::proofs::Refusals::is_number))]
pub fn advance(job: &[u8], bits: &mut [u8], reasons: &mut [u32], n: u64) -> Result<Ended, Refusal>
    ensures outcome { advance_leaves (advanced_of result) (lent_of bits.new reasons.new)
        ≡ advance_bits_of job.now (lent_of bits.old reasons.old) n }
{
    bits_check(job, bits, reasons)?;
    Ok(run::run(job, bits, reasons, n))
}

// The number of done places of a bit table.
#[tactic(auto, unfolding(bit_machine::specs::Operations::done_count_of), using(job::proofs::CallChecks::long_enough, job::proofs::Refusals::is_number))]
pub fn done_count(bits: &[u8]) -> Result<u64, Refusal>
    ensures answer { counted_of result ≡ done_count_of bits.now }
{
    call::short_buffer(bits.len(), BITS_BYTES, 1)?;
    Ok(count::count_ones(bits))
}
