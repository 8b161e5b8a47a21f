// The text of ABNF: the part of RFC 5234 that is read, with or without the strings of RFC 7405. What such a text is, what
// it says and what that means, and the pieces by which it is read.
#![tactic(auto)]

pub mod theorems;

// Whose strings a text may have: those of RFC 5234 alone, or those of RFC 7405 too.
#[derive(Clone, Copy)]
pub enum Edition {
    Rfc5234,
    Rfc7405,
}

// The mark between the name of a rule and its alternatives: `=` begins the rule, `=/` adds alternatives to it.
#[derive(Clone, Copy)]
pub enum Mark {
    Defines,
    Adds,
}

// A character that a text stands for, and whether the other case of a letter serves too.
#[derive(Clone, Copy)]
pub struct Character {
    pub byte: u8,
    pub either: bool,
}

// What a piece of a text is. A literal is a string or a value.
// Kept (1): NoPiece stands for no piece, since theorem LongestPieces speaks of it, and piece_of gives it.
#[derive(Clone, Copy)]
pub enum PieceKind {
    NamePiece,
    MarkPiece,
    SlashPiece,
    BlankPiece,
    LiteralPiece,
    CommentPiece,
    EndPiece,
    NoPiece,
}

// A piece that begins at an offset: what it is, and how many bytes it has after its first.
#[derive(Clone, Copy)]
pub struct Begun {
    pub kind: PieceKind,
    pub more: usize,
}

// How far a line is read: nothing yet; past the name, without and with a blank; where an element must follow; past an
// element; past a comment. Outside is none of these: the last piece may not stand where it does.
#[derive(Clone, Copy)]
pub enum Stage {
    LineStart,
    Named,
    NamedSpaced,
    Open,
    OpenSpaced,
    Filled,
    FilledSpaced,
    Noted,
    Outside,
}

// The offset at which a text leaves the part, if it does.
// Kept (1): not an Option, since theorems OfThePart and FirstOutside speak of it by these names.
#[derive(Clone, Copy)]
pub enum Fault {
    Nothing,
    At(usize),
}
