// The rules of a text of the part, one after the other.
ghost use Rattle.std.specs.Prelude.{◌≤◌, ◌<◌, length};
ghost use Rattle.abnf.specs.declared.Stage.TheVariants.{LineStart, Filled};
ghost use Rattle.cursor.specs.Cursor.{FineAt, ElementBegins, HeadRead, ElementRead, AfterRead};

use crate::{After, ElementPart, Head};
use abnf::{Edition, Mark};
use scanner::bytes::ByteClass;
use scanner::{bytes, pieces};

// The rule whose line begins at an offset.
pub fn head_at(edition: Edition, text: &[u8], at: usize) -> Head
    requires inside { at < length text.now }
    requires fine { FineAt edition LineStart text.now at }
    ensures read { HeadRead edition text.now at result }
{
    let end = bytes::run_end(ByteClass::Name, text, at);
    let sign = bytes::run_end(ByteClass::Wsp, text, end) + 1;
    if bytes::stands_at(b'/', text, sign) {
        Head {
            end,
            mark: Mark::Adds,
            body: bytes::run_end(ByteClass::Wsp, text, sign + 1),
        }
    } else {
        Head {
            end,
            mark: Mark::Defines,
            body: bytes::run_end(ByteClass::Wsp, text, sign),
        }
    }
}

// What stands after an element that ends at an offset, and where.
fn after_element(edition: Edition, text: &[u8], end: usize) -> (After, usize)
    requires inside { end ≤ length text.now }
    requires fine { FineAt edition Filled text.now end }
    ensures read { AfterRead edition text.now end result.0 result.1 }
{
    let sign = bytes::run_end(ByteClass::Wsp, text, end);
    match text[sign] {
        b'/' => (
            After::AlternativeAfter,
            bytes::run_end(ByteClass::Wsp, text, sign + 1),
        ),
        b';' => (
            After::RuleAfter,
            bytes::run_end(ByteClass::Comment, text, sign + 1) + 2,
        ),
        b'\r' => (After::RuleAfter, sign + 2),
        _ => (After::ElementAfter, sign),
    }
}

// The element that begins at an offset.
pub fn element_at(edition: Edition, text: &[u8], at: usize) -> ElementPart
    requires element { ElementBegins edition text.now at }
    ensures read { ElementRead edition text.now at result }
{
    let end = at + 1 + pieces::piece_at(edition, text, at).more;
    let (after, next) = after_element(edition, text, end);
    ElementPart {
        literal: !bytes::is_alpha(text[at]),
        end,
        after,
        next,
    }
}
