// The piece of a text that begins at an offset.
ghost use Rattle.std.specs.Prelude.{◌≡◌, cond, ◌+◌, ◌≤◌, ◌<◌, length, get_or, drop};
ghost use Rattle.abnf.specs.Pieces.{piece, neither, quoted, value, prefixed, percent, has_prefixes_lem, piece_of, span};
ghost use Rattle.scanner.specs.Classes.{test_of};

use crate::bytes::ByteClass;
use crate::{bytes, values};
use abnf::{Begun, Edition, PieceKind};

// A byte with which no piece begins.
// Kept (1): a Begun of kind NoPiece, and no Option, since theorem LongestPieces speaks of it, and piece_of gives it.
const NEITHER: Begun = Begun {
    kind: PieceKind::NoPiece,
    more: 0,
};

// A piece of a kind where a test holds, else a byte with which no piece begins.
fn piece_if(test: bool, kind: PieceKind, more: usize) -> Begun
    ensures piece { result ≡ cond test (piece kind more) neither }
{
    if test { Begun { kind, more } } else { NEITHER }
}

// The string whose quotes hold the bytes that a text begins with; n bytes stand between the piece's first and these.
#[tactic(auto, using(crate::proofs::Stretches::span_prefix))]
fn quoted(n: usize, text: &[u8]) -> Begun
    requires few { n ≤ 2 }
    ensures string { result ≡ quoted n text.now }
{
    let length = bytes::run_length(ByteClass::Quotable, text);
    let closed = bytes::stands_at(b'"', text, length);
    piece_if(closed, PieceKind::LiteralPiece, n + length + 1)
}

// The value whose digits a text begins with.
fn value(text: &[u8]) -> Begun
    ensures value { result ≡ value text.now }
{
    let length = values::dotted_length(text);
    let is_value = bytes::class_at(ByteClass::Hexdig, text, 0)
        && !values::is_range(text)
        && values::values_fit(&text[..length]);
    piece_if(is_value, PieceKind::LiteralPiece, length + 1)
}

// The string that stands after the letter of %s or %i.
fn prefixed(text: &[u8]) -> Begun
    ensures string { result ≡ prefixed text.now }
{
    match text {
        [b'"', rest @ ..] => quoted(2, rest),
        _ => NEITHER,
    }
}

// Whether an edition has strings after %s and %i.
fn has_prefixes(edition: Edition) -> bool
    ensures says { result ≡ has_prefixes_lem edition }
{
    matches!(edition, Edition::Rfc7405)
}

// What stands after a percent sign.
fn percent(edition: Edition, text: &[u8]) -> Begun
    ensures literal { result ≡ percent edition text.now }
{
    let [letter, rest @ ..] = text else {
        return NEITHER;
    };
    match letter.to_ascii_lowercase() {
        b'x' => value(rest),
        b's' | b'i' if has_prefixes(edition) => prefixed(rest),
        _ => NEITHER,
    }
}

// A stretch of bytes of a class, after the piece's first byte.
#[tactic(auto, using(crate::proofs::Stretches::span_prefix))]
fn run_piece(kind: PieceKind, class: ByteClass, text: &[u8]) -> Begun
    ensures piece { result ≡ piece kind (span (test_of class) text.now) }
{
    Begun {
        kind,
        more: bytes::run_length(class, text),
    }
}

// The piece that begins with a byte, before the rest of a text.
fn begun(edition: Edition, b: u8, rest: &[u8]) -> Begun
    ensures piece { result ≡ piece_of edition b rest.now }
{
    match b {
        b'A'..=b'Z' | b'a'..=b'z' => run_piece(PieceKind::NamePiece, ByteClass::Name, rest),
        b' ' | b'\t' => run_piece(PieceKind::BlankPiece, ByteClass::Wsp, rest),
        b'=' => Begun {
            kind: PieceKind::MarkPiece,
            more: usize::from(bytes::stands_at(b'/', rest, 0)),
        },
        b'/' => Begun {
            kind: PieceKind::SlashPiece,
            more: 0,
        },
        b';' => run_piece(PieceKind::CommentPiece, ByteClass::Comment, rest),
        b'\r' => piece_if(bytes::stands_at(b'\n', rest, 0), PieceKind::EndPiece, 1),
        b'"' => quoted(0, rest),
        b'%' => percent(edition, rest),
        _ => NEITHER,
    }
}

// The piece that begins at an offset.
pub fn piece_at(edition: Edition, text: &[u8], at: usize) -> Begun
    requires inside { at < length text.now }
    ensures piece { result ≡ piece_of edition (get_or text.now at 0) (drop (at + 1) text.now) }
    ensures within { at + 1 + result.more ≤ length text.now }
{
    begun(edition, text[at], &text[at + 1..])
}
