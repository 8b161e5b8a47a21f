// The items of a body as numbers: a character is its byte, a letter of either case 256 and the small letter, a name 512
// and its number.
ghost use Rattle.std.specs.Prelude.{◌≡◌, [], ◌∷◌, ◌++◌, map, take, ◌<◌, ◌≤◌, length};
ghost use Rattle.abnf.specs.Reading.{characters_of_lem};
ghost use Rattle.abnf_jobs.specs.Bodies.{item_of, items_of};
ghost use Rattle.scanner.specs.Parts.{part_of_lem};
ghost use Rattle.cursor.specs.Cursor.{ElementBegins, IsLiteral, IsElement, element_of};
ghost use Rattle.bodies.specs.Items.{code_of, ReadBody};

use crate::{ITEMS, Rest};
use abnf::Character;
use cursor::{After, ElementPart, literal, rules};
use naming::table::NamedText;
use scanner::bytes;
use std::marker::Model;

// The first items of a body, as many as there is room for. A clause sees them as a list.
#[derive(Drop)]
pub struct Kept {
    items: [u16; ITEMS],
    count: usize,
}

impl Model for Kept {
    ghost use Rattle.std.specs.Prelude.{ℕ, List, take, ◌≤◌};

    ghost Value = { List ℕ };

    ghost view = { λ a. take a.count a.items };

    ghost invariant = { λ a. a.count ≤ 35 };
}

// The number of a character's item.
fn character_item(c: Character) -> u16
    ensures item { result ≡ code_of (item_of c) }
{
    if c.either && bytes::is_alpha(c.byte) {
        256 + u16::from(bytes::to_lower(c.byte))
    } else {
        u16::from(c.byte)
    }
}

impl Kept {
    pub fn new() -> Kept
        ensures none { result ≡ [] }
    {
        Kept {
            items: [0; ITEMS],
            count: 0,
        }
    }

    pub fn items(&self) -> &[u16]
        ensures items { result.now ≡ self.now }
    {
        &self.items[..self.count]
    }

    fn clear(&mut self)
        ensures none { self.new ≡ [] }
    {
        self.count = 0;
    }

    // Keeps one item more, if there is room.
    fn keep(&mut self, item: u16)
        ensures kept { self.new ≡ take 35 (self.old ++ (item ∷ [])) }
    {
        if self.count < ITEMS {
            self.items[self.count] = item;
            self.count += 1;
        }
    }

    // Keeps the characters of the literal between two offsets.
    fn keep_literal(&mut self, text: &[u8], at: usize, end: usize)
        requires inside { (at < end) × (end ≤ length text.now) }
        requires literal { IsLiteral (part_of_lem text.now at end) }
        requires few { length self.old ≤ 35 }
        ensures kept { self.new ≡ take 35 (self.old
            ++ map code_of (map item_of (characters_of_lem (part_of_lem text.now at end)))) }
    {
        let mut left = literal::characters_of(text, at, end);
        while let Some(taken) = literal::next_character(text, left) {
            self.keep(character_item(taken.character));
            left = taken.rest;
        }
    }

    // Keeps the items of the element that begins at an offset.
    fn keep_element(&mut self, named: &NamedText, at: usize, x: ElementPart)
        requires inside { (at < x.end) × (x.end ≤ length named.now.text) }
        requires element { IsElement x.literal (part_of_lem named.now.text at x.end) }
        requires few { length self.old ≤ 35 }
        ensures kept { self.new ≡ take 35 (self.old ++ map code_of (items_of named.now.names
            (element_of x.literal (part_of_lem named.now.text at x.end) ∷ []))) }
    {
        let text = named.text();
        if x.literal {
            self.keep_literal(text, at, x.end);
        } else {
            self.keep((512 + named.number(&text[at..x.end])) as u16);
        }
    }
}

// Reads the body whose first element begins at an offset: its items, and what begins behind it.
pub fn read_body(named: &NamedText, from: usize, kept: &mut Kept) -> Rest
    requires element { ElementBegins named.now.edition named.now.text from }
    ensures read { ReadBody named.now.edition named.now.text named.now.names from kept.new result }
{
    kept.clear();
    let mut at = from;
    loop {
        let x = rules::element_at(named.edition(), named.text(), at);
        kept.keep_element(named, at, x);
        let after = x.after;
        at = x.next;
        match after {
            After::ElementAfter => {}
            After::AlternativeAfter => return Rest::NextBody(at),
            After::RuleAfter => return Rest::NextLine(at),
        }
    }
}
