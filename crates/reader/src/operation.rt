// Reading an ABNF text, for every input.
ghost use Rattle.std.specs.Prelude.{◌≡◌, ◌+◌, ◌≤◌, length, IfSome, IfOk, Some};
ghost use Rattle.job.specs.Refusals.{number_of, checked_of};
ghost use Rattle.job.specs.Check.{short_buffer_lem, room_check, or_else};
ghost use Rattle.abnf.specs.declared.Edition.TheVariants.{Rfc5234};
ghost use Rattle.abnf.specs.declared.Fault.TheVariants.{Nothing};
ghost use Rattle.abnf.specs.Reading.{fault_of, lines_of};
ghost use Rattle.abnf.specs.Meaning.{names_of};
ghost use Rattle.abnf_jobs.specs.Names.{name_fault_of};
ghost use Rattle.abnf_jobs.specs.Bodies.{bodies_of};
ghost use Rattle.abnf_jobs.specs.Characters.{used_in};
ghost use Rattle.abnf_jobs.specs.Operation.{text_check_lem, fault_check_lem, numbers_check_lem, rules_check_lem};
ghost use Rattle.abnf_jobs.specs.Answers.{text_read_of};
ghost use Rattle.abnf_jobs.specs.Operation.{read_leaves, read_of};
ghost use Rattle.text_symbols.specs.Marks.{Marked};
ghost use Rattle.reader.specs.Walk.{TextReady, Fits, kept_count};
ghost use Rattle.reader.specs.Parts.{lines_outcome};

use crate::walk;
use abnf::{Edition, Fault};
use abnf_jobs::Counts;
use job::{Cause, Checked, RULES, Refusal};
use naming::table::NamedText;
use text_symbols::characters::Used;
use text_symbols::rules::RulesRead;

// A refusal at a fault's offset.
fn fault_check(cause: Cause, fault: Fault) -> Checked
    ensures checked { checked_of result ≡ fault_check_lem (number_of cause) fault }
{
    match fault {
        Fault::Nothing => Ok(()),
        Fault::At(place) => Err(Refusal { cause, place }),
    }
}

// 10 for a short map, 2 for a long text, 16 for a text outside the part.
fn text_check(edition: Edition, text: &[u8], map: usize) -> Checked
    ensures checked { checked_of result ≡ or_else (short_buffer_lem map 32 3) (or_else (text_check_lem (length text.now))
        (fault_check_lem 16 (fault_of edition text.now))) }
{
    if map < 32 {
        return Err(Refusal {
            cause: Cause::ShortBuffer,
            place: 3,
        });
    }
    if 16384 < text.len() {
        return Err(Refusal {
            cause: Cause::TooLong,
            place: text.len(),
        });
    }
    fault_check(Cause::OutsideAbnf, scanner::scan::scan(edition, text))
}

// 18, by how many variables and characters are needed.
fn numbers_check(variables: usize, characters: usize) -> Checked
    ensures checked { checked_of result ≡ numbers_check_lem variables characters }
{
    if 32 < variables {
        return Err(Refusal {
            cause: Cause::TooFewNumbers,
            place: 1,
        });
    }
    if 32 < characters {
        return Err(Refusal {
            cause: Cause::TooFewNumbers,
            place: 2,
        });
    }
    Ok(())
}

// The keys of the rules, unless 7 or 13 refuses.
fn rules_check(rules: &RulesRead, room: usize) -> Result<&[u32], Refusal>
    requires few { IfSome rules.now (λ keys. length keys ≤ 256) }
    ensures checked { checked_of result ≡ or_else (rules_check_lem (kept_count rules.now))
        (room_check (kept_count rules.now + 1) room) }
    ensures keys { IfOk result (λ keys. rules.now ≡ Some keys.now) }
{
    let keys = rules.keys().ok_or(Refusal {
        cause: Cause::TooManyRules,
        place: RULES + 1,
    })?;
    records::write::room_check(keys.len() + 1, room)?;
    Ok(keys)
}

// Writes the map and the job of a text that has no more variables and characters than there are numbers.
fn write_text(
    named: &NamedText,
    used: &Used,
    map: &mut [u8],
    job: &mut [u8],
) -> Result<Counts, Refusal>
    requires ready { TextReady named.now }
    requires fits { Fits (lines_of named.now.edition named.now.text) }
    requires used { Marked (used_in (bodies_of (lines_of named.now.edition named.now.text))) used.now }
    requires room { 32 ≤ length map.old }
    ensures left { read_leaves (text_read_of result) map.new job.new
        ≡ lines_outcome (lines_of named.now.edition named.now.text) map.old job.old }
{
    let rules = walk::put_rules(named, &used.numbers());
    let keys = rules_check(&rules, job.len())?;
    used.write_map(map);
    records::write::write_grammar(0, keys, job);
    Ok(Counts {
        records: keys.len() + 1,
        characters: used.count(),
    })
}

// Reads a text whose names are in a table.
fn read_bodies(named: &NamedText, map: &mut [u8], job: &mut [u8]) -> Result<Counts, Refusal>
    requires ready { TextReady named.now }
    requires few { length named.now.names ≤ 32 }
    requires room { 32 ≤ length map.old }
    ensures left { read_leaves (text_read_of result) map.new job.new
        ≡ lines_outcome (lines_of named.now.edition named.now.text) map.old job.old }
{
    let mut used = Used::new();
    let variables = walk::count_bodies(named, &mut used);
    numbers_check(variables, used.count())?;
    write_text(named, &used, map, job)
}

// 17, and 18 where there are more names than numbers.
fn names_check(named: &NamedText) -> Checked
    requires fine { fault_of named.now.edition named.now.text ≡ Nothing }
    requires names { named.now.names ≡ names_of (lines_of named.now.edition named.now.text) }
    ensures checked { checked_of result ≡ or_else (fault_check_lem 17 (name_fault_of named.now.edition named.now.text))
        (numbers_check_lem (length named.now.names) 0) }
{
    fault_check(Cause::NameOutOfPlace, naming::uses::name_fault(named))?;
    numbers_check(named.count(), 0)
}

// Reads a text of the part.
fn read_names(
    edition: Edition,
    text: &[u8],
    map: &mut [u8],
    job: &mut [u8],
) -> Result<Counts, Refusal>
    requires short { length text.now ≤ 16384 }
    requires fine { fault_of edition text.now ≡ Nothing }
    requires room { 32 ≤ length map.old }
    ensures left { read_leaves (text_read_of result) map.new job.new
        ≡ read_of edition text.now map.old job.old }
{
    let mut named = NamedText::new(edition, text);
    naming::lines::collect(&mut named);
    names_check(&named)?;
    read_bodies(&named, map, job)
}

// Reads an ABNF text: the job to one buffer, its characters to the map. A refused call leaves both as they were.
fn read_text(
    edition: Edition,
    text: &[u8],
    map: &mut [u8],
    job: &mut [u8],
) -> Result<Counts, Refusal>
    ensures left { read_leaves (text_read_of result) map.new job.new
        ≡ read_of edition text.now map.old job.old }
{
    text_check(edition, text, map.len())?;
    read_names(edition, text, map, job)
}

// Reads an ABNF text of the older edition.
pub fn read_abnf(text: &[u8], map: &mut [u8], job: &mut [u8]) -> Result<Counts, Refusal>
    ensures left { read_leaves (text_read_of result) map.new job.new
        ≡ read_of Rfc5234 text.now map.old job.old }
{
    read_text(Edition::Rfc5234, text, map, job)
}
