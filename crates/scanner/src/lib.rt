// Scanning the text of ABNF: its pieces, and the offset at which it leaves the part.
#![tactic(auto)]

pub mod bytes;
pub mod pieces;
pub mod scan;
pub mod values;
