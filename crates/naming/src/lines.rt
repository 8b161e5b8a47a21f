// The names that begin the lines of a text.
ghost use Rattle.std.specs.Prelude.{◌≡◌, [], ◌≤◌, length};
ghost use Rattle.abnf.specs.declared.Fault.TheVariants.{Nothing};
ghost use Rattle.abnf.specs.Reading.{fault_of, lines_of};
ghost use Rattle.abnf.specs.Meaning.{names_of};
ghost use Rattle.cursor.specs.Cursor.{ElementBegins};
ghost use Rattle.naming.specs.Walk.{is_rule_after, RuleEnds};

use crate::table::NamedText;
use abnf::Edition;
use cursor::{After, rules};

// Whether a rule ends after an element.
pub fn ends_rule(after: After) -> bool
    ensures says { result ≡ is_rule_after after }
{
    matches!(after, After::RuleAfter)
}

// Where the line ends whose first element begins at an offset.
fn rule_end(edition: Edition, text: &[u8], body: usize) -> usize
    requires element { ElementBegins edition text.now body }
    ensures ends { RuleEnds edition text.now body result }
{
    let mut x = rules::element_at(edition, text, body);
    while !ends_rule(x.after) {
        x = rules::element_at(edition, text, x.next);
    }
    x.next
}

// Enters the names that begin lines, in the order in which they first do.
pub fn collect(named: &mut NamedText)
    requires short { length named.old.text ≤ 16384 }
    requires fine { fault_of named.old.edition named.old.text ≡ Nothing }
    requires none { named.old.names ≡ [] }
    ensures names { named.new ≡ record named.old { names = names_of (lines_of named.old.edition named.old.text) } }
{
    let edition = named.edition();
    let text = named.text();
    let mut at = 0;
    // Kept (3): the next line is found only by reading this one to its end, so no range or iterator has the offsets.
    while at < text.len() {
        let head = rules::head_at(edition, text, at);
        named.enter(at, head.end);
        at = rule_end(edition, text, head.body);
    }
}
