// Binarize: a long job whose rules have bodies of up to eight symbols is written as an ordinary job.
#![tactic(auto)]

pub mod convert;
pub mod fresh;
pub mod operation;
pub mod walk;

// Room for the records written until a refusal: one for each of the 4,096 records of a long job that is no rule, 256
// rules, and the 7 that one record is written as at most.
pub const WRITTEN_BYTES: usize = 17436;
