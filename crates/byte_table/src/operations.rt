// Start and advance, for every input.
ghost use Rattle.std.specs.Prelude.{◌≡◌};
ghost use Rattle.job.specs.Refusals.{checked_of};
ghost use Rattle.machine.specs.Answers.{started_of, advanced_of};
ghost use Rattle.machine.specs.Operations.{machine_check_lem, start_of, advance_of, start_leaves, advance_leaves};
ghost use Rattle.machine.specs.Table.{lent_of};

use crate::run;
use checks::call;
use job::{Checked, Level, Refusal, TABLE_BYTES};
use machine::Ended;

// The checks of start and advance: short buffers, then the job's.
#[tactic(auto, unfolding(machine::specs::Operations::machine_check_by), using(job::proofs::Refusals::refused_first))]
pub fn machine_check(job: &[u8], table: &[u8], reasons: &[u32]) -> Checked
    ensures checked { checked_of result
        ≡ machine_check_lem job.now (lent_of table.now reasons.now) }
{
    call::short_lent(table.len(), TABLE_BYTES, reasons.len())?;
    call::job_check(job, Level::Full, true)
}

// Writes the table and the reasons that a job starts from, and answers its number of states.
#[tactic(auto, unfolding(machine::specs::Operations::start_by), using(machine::proofs::MachineChecks::machine_passed, job::proofs::Refusals::is_number))]
pub fn start(job: &[u8], table: &mut [u8], reasons: &mut [u32]) -> Result<usize, Refusal>
    ensures outcome { start_leaves (started_of result) (lent_of table.new reasons.new)
        ≡ start_of job.now (lent_of table.old reasons.old) }
{
    machine_check(job, table, reasons)?;
    Ok(run::begin(job, table, reasons))
}

// Makes at most n steps on a table, whatever it holds.
#[tactic(auto, unfolding(machine::specs::Operations::advance_by), using(crate::proofs::Passed::lent_long, crate::proofs::Passed::job_accepted, job::proofs::Refusals::is_number))]
pub fn advance(job: &[u8], table: &mut [u8], reasons: &mut [u32], n: u64) -> Result<Ended, Refusal>
    ensures outcome { advance_leaves (advanced_of result) (lent_of table.new reasons.new)
        ≡ advance_of job.now (lent_of table.old reasons.old) n }
{
    let checked = machine_check(job, table, reasons);
    checked?;
    Ok(run::run(job, table, reasons, n))
}
