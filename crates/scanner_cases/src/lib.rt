// The scan of ABNF text and its cursor, exported for tests alone. The product links none of it. The cursor is for texts of
// the part, at the offsets that the calls before it gave.
#![tactic(auto)]

ghost use Rattle.std.specs.Prelude.{◌≡◌, Some, ◌≤◌, ◌<◌, length};
ghost use Rattle.abnf.specs.declared.Stage.TheVariants.{LineStart};
ghost use Rattle.abnf.specs.Reading.{fault_of};
ghost use Rattle.scanner.specs.Parts.{part_of_lem};
ghost use Rattle.cursor.specs.Cursor.{FineAt, ElementBegins, IsLiteral, Ready};
ghost use Rattle.scanner_cases.specs.Numbers.{edition_of_lem, fault_number};

use abnf::{Edition, Fault, Mark};
use cursor::{After, Characters, ElementPart, Head};

// The newer edition or the older.
fn edition_of(newer: bool) -> Edition
    ensures edition { result ≡ edition_of_lem newer }
{
    if newer {
        Edition::Rfc7405
    } else {
        Edition::Rfc5234
    }
}

// An offset, or the largest number for none.
fn number_of(fault: Fault) -> u64
    ensures number { result ≡ fault_number fault }
{
    match fault {
        Fault::Nothing => 18446744073709551615,
        Fault::At(offset) => offset as u64,
    }
}

// The offset at which a text leaves the part, or the largest number.
#[unsafe(no_mangle)]
pub extern "C" fn ropeclover_test_scan(newer: bool, text: &[u8]) -> u64
    ensures fault { result ≡ fault_number (fault_of (edition_of_lem newer) text.now) }
{
    number_of(scanner::scan::scan(edition_of(newer), text))
}

// 0 for `=` and 1 for `=/`.
fn mark_number(head: Head) -> u64 {
    match head.mark {
        Mark::Defines => 0,
        Mark::Adds => 1,
    }
}

// The end of the name, 1 for `=/`, and the first element of the rule whose line begins at an offset.
#[unsafe(no_mangle)]
pub extern "C" fn ropeclover_test_head(newer: bool, text: &[u8], at: usize, answer: &mut [u64; 3])
    requires inside { at < length text.now }
    requires fine { FineAt (edition_of_lem newer) LineStart text.now at }
{
    let head = cursor::rules::head_at(edition_of(newer), text, at);
    *answer = [head.end as u64, mark_number(head), head.body as u64];
}

// 0 to 2 for an element, an alternative or a rule.
fn after_number(part: ElementPart) -> u64 {
    match part.after {
        After::ElementAfter => 0,
        After::AlternativeAfter => 1,
        After::RuleAfter => 2,
    }
}

// 1 for a literal, the end, 0 to 2 for an element, an alternative or a rule after it, and the offset of that.
#[unsafe(no_mangle)]
pub extern "C" fn ropeclover_test_element(
    newer: bool,
    text: &[u8],
    at: usize,
    answer: &mut [u64; 4],
)
    requires element { ElementBegins (edition_of_lem newer) text.now at }
{
    let part = cursor::rules::element_at(edition_of(newer), text, at);
    *answer = [
        u64::from(part.literal),
        part.end as u64,
        after_number(part),
        part.next as u64,
    ];
}

// The characters of the literal between two offsets.
#[unsafe(no_mangle)]
pub extern "C" fn ropeclover_test_characters(
    text: &[u8],
    at: usize,
    end: usize,
    answer: &mut [u64; 5],
)
    requires inside { (at < end) × (end ≤ length text.now) }
    requires literal { IsLiteral (part_of_lem text.now at end) }
{
    let left = cursor::literal::characters_of(text, at, end);
    *answer = [
        left.at.unwrap_or(left.end) as u64,
        left.end as u64,
        u64::from(left.hex),
        u64::from(left.either),
        u64::from(left.at.is_some()),
    ];
}

// The first of the characters that are left: its byte, 1 where either case serves, and what is left after it.
#[unsafe(no_mangle)]
pub extern "C" fn ropeclover_test_next_character(
    text: &[u8],
    at: usize,
    end: usize,
    hex: bool,
    either: bool,
    answer: &mut [u64; 4],
)
    requires ready { Ready text.now (record { at = Some at; end = end; hex = hex; either = either }) }
{
    let left = Characters {
        at: Some(at),
        end,
        hex,
        either,
    };
    if let Some(taken) = cursor::literal::next_character(text, left) {
        *answer = [
            u64::from(taken.character.byte),
            u64::from(taken.character.either),
            taken.rest.at.unwrap_or(end) as u64,
            u64::from(taken.rest.at.is_some()),
        ];
    }
}
