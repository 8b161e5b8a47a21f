// Numbers, words and lines as the programs print them, put into a lent buffer.
#![tactic(auto)]

pub mod lines;
pub mod page;
pub mod records;
pub mod theorems;
