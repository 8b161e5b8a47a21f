// The rules of an ABNF text of the part, one after the other: their alternatives, elements and characters.
#![tactic(auto)]

use abnf::{Character, Mark};

pub mod literal;
pub mod rules;

// The start of a rule: where its name ends, its mark, and where its first element begins.
#[derive(Clone, Copy)]
pub struct Head {
    pub end: usize,
    pub mark: Mark,
    pub body: usize,
}

// What stands after an element: another of the same alternative, another alternative, or the end of the rule.
#[derive(Clone, Copy, PartialEq, Eq)]
pub enum After {
    ElementAfter,
    AlternativeAfter,
    RuleAfter,
}

// An element: whether it is a literal or else a name, where it ends, and what stands after it at which offset.
#[derive(Clone, Copy)]
pub struct ElementPart {
    pub literal: bool,
    pub end: usize,
    pub after: After,
    pub next: usize,
}

// The characters of a literal that are left: where the first of them begins, if there is one, and where they end. The
// bytes from there on are the digits and dots of a value, or the characters themselves, of either case or as they are.
#[derive(Clone, Copy)]
pub struct Characters {
    pub at: Option<usize>,
    pub end: usize,
    pub hex: bool,
    pub either: bool,
}

// A character, and those that are left after it.
#[derive(Clone, Copy)]
pub struct Taken {
    pub character: Character,
    pub rest: Characters,
}
