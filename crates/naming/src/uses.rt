// Refusal 17: the first name without a rule, or whose lines are out of order.
ghost use Rattle.std.specs.Prelude.{◌≡◌};
ghost use Rattle.abnf.specs.declared.Fault.TheVariants.{Nothing};
ghost use Rattle.abnf.specs.Reading.{fault_of, lines_of};
ghost use Rattle.abnf.specs.Meaning.{names_of};
ghost use Rattle.abnf_jobs.specs.Names.{name_fault_of};
ghost use Rattle.cursor.specs.Cursor.{ElementBegins};
ghost use Rattle.scanner.specs.Parts.{part_of_lem};
ghost use Rattle.naming.specs.Named.{Inside};
ghost use Rattle.naming.specs.Walk.{is_defines_lem, is_unknown_lem, Mentions};

use crate::lines;
use crate::table::NamedText;
use abnf::{Fault, Mark};
use cursor::{ElementPart, rules};

// Whether a mark begins a rule.
fn is_defines(mark: Mark) -> bool
    ensures says { result ≡ is_defines_lem mark }
{
    matches!(mark, Mark::Defines)
}

// Whether an element is a name that is not entered.
fn unknown(named: &NamedText, at: usize, x: ElementPart) -> bool
    requires inside { Inside named.now.text at x.end }
    ensures says { result ≡ is_unknown_lem x.literal named.now.names (part_of_lem named.now.text at x.end) }
{
    !x.literal && named.find(&named.text()[at..x.end]).is_none()
}

// Looks up the names among the elements of a line from an offset on: where the next line begins if all have rules, or
// else where the first stands that has none.
fn mentions(named: &NamedText, body: usize) -> Result<usize, usize>
    requires element { ElementBegins named.now.edition named.now.text body }
    ensures looked { Mentions named.now.edition named.now.text named.now.names body result }
{
    let mut at = body;
    loop {
        let x = rules::element_at(named.edition(), named.text(), at);
        if unknown(named, at, x) {
            return Err(at);
        }
        let after = x.after;
        at = x.next;
        if lines::ends_rule(after) {
            return Ok(at);
        }
    }
}

// The offset of the first name without a rule, with = and one above it, or with =/ and no = above it. The names that
// have = above are the first of all, so a name's number says whether it is one of them.
pub fn name_fault(named: &NamedText) -> Fault
    requires fine { fault_of named.now.edition named.now.text ≡ Nothing }
    requires names { named.now.names ≡ names_of (lines_of named.now.edition named.now.text) }
    ensures fault { result ≡ name_fault_of named.now.edition named.now.text }
{
    let edition = named.edition();
    let text = named.text();
    let mut defined = 0;
    let mut at = 0;
    // Kept (3): the next line is found only by looking up the names of this one.
    while at < text.len() {
        let head = rules::head_at(edition, text, at);
        let mark = head.mark;
        let above = named.number(&text[at..head.end]) < defined;
        if above == is_defines(mark) {
            return Fault::At(at);
        }
        defined += usize::from(!above);
        match mentions(named, head.body) {
            Ok(next) => at = next,
            Err(missing) => return Fault::At(missing),
        }
    }
    Fault::Nothing
}
