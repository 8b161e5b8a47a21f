// ABNF text as a job: the names of a text, its bodies, the variables and terminals that it takes, its rules.
#![tactic(auto)]

pub mod theorems;

// What is read of an ABNF text: the number of records written and the number of characters in the map.
#[derive(Clone, Copy)]
pub struct Counts {
    pub records: usize,
    pub characters: usize,
}
