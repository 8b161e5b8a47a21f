// The characters of a literal, one after the other.
ghost use Rattle.std.specs.Prelude.{◌≡◌, false, None, ltb, ⊤, MatchOption, ◌∷◌, ◌≤◌, ◌<◌, length};
ghost use Rattle.std.specs.Bool.{then_some};
ghost use Rattle.abnf.specs.Reading.{characters_of_lem};
ghost use Rattle.scanner.specs.Parts.{part_of_lem};
ghost use Rattle.cursor.specs.Cursor.{IsLiteral, characters_left, Ready};

use crate::{Characters, Taken};
use abnf::Character;
use scanner::{bytes, values};

// The characters of the literal between two offsets.
pub fn characters_of(text: &[u8], at: usize, end: usize) -> Characters
    requires inside { (at < end) × (end ≤ length text.now) }
    requires literal { IsLiteral (part_of_lem text.now at end) }
    ensures characters { characters_left text.now result ≡ characters_of_lem (part_of_lem text.now at end) }
    ensures ready { Ready text.now result }
{
    if text[at] == b'"' {
        return quoted(at + 1, end - 1, true);
    }
    match bytes::to_lower(text[at + 1]) {
        b'x' => Characters {
            at: Some(at + 2),
            end,
            hex: true,
            either: false,
        },
        letter => quoted(at + 3, end - 1, letter == b'i'),
    }
}

// The characters between quotes.
fn quoted(at: usize, end: usize, either: bool) -> Characters
    ensures characters { result ≡ record { at = then_some (ltb at end) at; end = end; hex = false; either = either } }
{
    Characters {
        at: (at < end).then_some(at),
        end,
        hex: false,
        either,
    }
}

// The first of the characters that are left, if there is one.
pub fn next_character(text: &[u8], left: Characters) -> Option<Taken>
    requires ready { Ready text.now left }
    ensures taken { MatchOption result (left.at ≡ None) (λ taken.
        characters_left text.now left ≡ taken.character ∷ characters_left text.now taken.rest) }
    ensures ready { MatchOption result ⊤ (λ taken. Ready text.now taken.rest) }
{
    let at = left.at?;
    if left.hex {
        let first = values::first_value(text, at, left.end);
        Some(Taken {
            character: Character {
                byte: first.value,
                either: false,
            },
            rest: Characters {
                at: first.next,
                ..left
            },
        })
    } else {
        Some(Taken {
            character: Character {
                byte: text[at],
                either: left.either,
            },
            rest: quoted(at + 1, left.end, left.either),
        })
    }
}
