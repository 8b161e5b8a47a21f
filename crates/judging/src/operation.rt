// The verdicts, for every input.
ghost use Rattle.std.specs.Prelude.{◌≡◌, ◌<◌, ◌≤◌, length};
ghost use Rattle.job.specs.Refusals.{checked_of};
ghost use Rattle.job.specs.Written.{written};
ghost use Rattle.job.specs.Inside.Keys.{Keys, rules_of_keys};
ghost use Rattle.verdicts.specs.Verdicts.{is_empty, growing, code_of};
ghost use Rattle.verdicts.specs.Answers.{verdicts_answer};
ghost use Rattle.verdicts.specs.Operation.{verdicts_check_lem, verdicts_leave, verdicts_of};

use crate::{codes, cycles};
use checks::call;
use job::{CODE_BYTES, Checked, Level, Refusal, TABLE_BYTES};
use verdicts::Judged;

// The checks of the verdicts: short buffers, then the job's, no I needed.
#[tactic(auto, unfolding(verdicts::specs::Operation::verdicts_check_by), using(job::proofs::Refusals::refused_first))]
fn verdicts_check(job: &[u8], table: &[u8], codes: &[u8]) -> Checked
    ensures checked { checked_of result ≡ verdicts_check_lem job.now table.now codes.now }
{
    call::short_buffer(table.len(), TABLE_BYTES, 1)?;
    call::short_buffer(codes.len(), CODE_BYTES, 3)?;
    call::job_check(job, Level::Full, false)
}

// The verdicts on the rules of some keys and a start symbol.
fn judge(keys: &[u32], start: u8, codes: &mut [u8]) -> Judged
    requires rules { Keys keys.now }
    requires start { start < 64 }
    requires lent { 64 ≤ length codes.old }
    ensures empty { result.empty ≡ is_empty (rules_of_keys keys.now) start }
    ensures growing { result.growing ≡ growing (rules_of_keys keys.now) start }
    ensures codes { codes.new
        ≡ written (code_of (rules_of_keys keys.now) start) 0 64 codes.old }
{
    let productive = symbol_flags::symbols::productive_symbols(keys);
    let useful = symbol_flags::symbols::useful_symbols(keys, start, productive);
    let named = codes::named_symbols(keys, start);
    codes::write_codes(named, productive, useful, codes);
    let kept = symbol_flags::rules::keep_rules(keys, useful);
    Judged {
        empty: !productive.contains(start),
        growing: cycles::any_cycle(kept.as_slice()),
    }
}

// Codes of the 64 symbols, and whether the language is empty and whether it grows. The table is scratch, left 0.
pub fn verdicts(job: &[u8], table: &mut [u8], codes: &mut [u8]) -> Result<Judged, Refusal>
    ensures left { verdicts_leave (verdicts_answer result) table.new codes.new
        ≡ verdicts_of job.now table.old codes.old }
{
    verdicts_check(job, table, codes)?;
    let keys = lookup::sorting::sorted_rules(job);
    let start = lookup::facts::field_of(job, b'S');
    records::clear::clear_table(table);
    Ok(judge(keys.as_slice(), start, codes))
}
