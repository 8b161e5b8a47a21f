// The bodies of an ABNF text, one after the other, with their items as numbers.
#![tactic(auto)]

pub mod items;
pub mod places;

// The most items of a body that are kept: with 35 its tails alone take more than 32 variables.
pub const ITEMS: usize = 35;

// What begins behind a body, and at which offset: another line, or another body of the same line.
#[derive(Clone, Copy)]
pub enum Rest {
    NextLine(usize),
    NextBody(usize),
}

// Where a body begins, and the number of its name.
#[derive(Clone, Copy)]
pub struct BodyPlace {
    pub at: usize,
    pub head: usize,
}
