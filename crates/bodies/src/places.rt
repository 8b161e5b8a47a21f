// The bodies of a text, one after the other.
ghost use Rattle.abnf.specs.declared.Stage.TheVariants.{LineStart};
ghost use Rattle.abnf_jobs.specs.Bodies.{bodies_from};
ghost use Rattle.cursor.specs.Cursor.{said_at, FineAt};
ghost use Rattle.bodies.specs.Items.{Behind, bodies_behind};
ghost use Rattle.bodies.specs.Places.{PlaceOf};

use crate::{BodyPlace, Rest};
use cursor::rules;
use naming::table::NamedText;

// The first body of the line that begins at an offset, if one does.
pub fn line_place(named: &NamedText, at: usize) -> Option<BodyPlace>
    requires fine { FineAt named.now.edition LineStart named.now.text at }
    ensures place { PlaceOf named.now.edition named.now.text named.now.names result
        (bodies_from named.now.names (said_at named.now.edition LineStart named.now.text at).lines) }
{
    let text = named.text();
    if at < text.len() {
        let head = rules::head_at(named.edition(), text, at);
        let number = named.number(&text[at..head.end]);
        return Some(BodyPlace {
            at: head.body,
            head: number,
        });
    }
    None
}

// The body behind one that is read.
pub fn next_place(named: &NamedText, head: usize, rest: Rest) -> Option<BodyPlace>
    requires behind { Behind named.now.edition named.now.text rest }
    ensures place { PlaceOf named.now.edition named.now.text named.now.names result
        (bodies_behind named.now.edition named.now.text named.now.names head rest) }
{
    match rest {
        Rest::NextLine(next) => line_place(named, next),
        Rest::NextBody(at) => Some(BodyPlace { at, head }),
    }
}
