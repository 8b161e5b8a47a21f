// Clean, for every input.
ghost use Rattle.std.specs.Prelude.{◌≡◌, ◌<◌};
ghost use Rattle.job.specs.Inside.Keys.{Keys, rules_of_keys};
ghost use Rattle.copies.specs.Answers.{cleaned_of};
ghost use Rattle.copies.specs.Operation.{clean_of, clean_on, clean_leaves};

use crate::{numbers, rules};
use job::{Level, Refusal};

// Writes the clean copy of the rules of some keys and a start symbol.
fn copy_rules(keys: &[u32], start: u8, out: &mut [u8]) -> Result<usize, Refusal>
    requires rules { Keys keys.now }
    requires start { start < 64 }
    ensures left { clean_leaves (cleaned_of result) out.new
        ≡ clean_on (rules_of_keys keys.now) start out.old }
{
    let productive = symbol_flags::symbols::productive_symbols(keys);
    let useful = symbol_flags::symbols::useful_symbols(keys, start, productive);
    let kept = symbol_flags::rules::keep_rules(keys, useful);
    let rules = kept.as_slice();
    records::write::room_check(rules.len() + 1, out.len())?;
    let numbers = numbers::number_symbols(useful);
    let renumbered = rules::renumber_keys(rules, &numbers);
    records::write::write_grammar(numbers[usize::from(start)], renumbered.as_slice(), out);
    Ok(rules.len() + 1)
}

// Writes the clean copy of a job, and answers its number of records. A refused call leaves the buffer as it was.
pub fn clean(job: &[u8], out: &mut [u8]) -> Result<usize, Refusal>
    ensures left { clean_leaves (cleaned_of result) out.new ≡ clean_of job.now out.old }
{
    checks::call::job_check(job, Level::Full, false)?;
    let keys = lookup::sorting::sorted_rules(job);
    let start = lookup::facts::field_of(job, b'S');
    copy_rules(keys.as_slice(), start, out)
}
