// Records in a buffer: reading and writing them, room for them, a start symbol with its rules, sort keys; clearing a
// table.
#![tactic(auto)]

pub mod clear;
pub mod format;
pub mod keys;
pub mod rules;
pub mod write;
