// The records of long jobs: reading them, and the first walk over them.
#![tactic(auto)]

pub mod check;
pub mod dialect;

// The length of a record of a long job.
pub const RECORD_BYTES: usize = 12;

// The most bytes that a long job may have.
pub const LONG_JOB_BYTES: usize = 49152;

// The most symbols that a body may have.
pub const BODY_SYMBOLS: usize = 8;

// A record of a long job.
pub type LongRecord = [u8; RECORD_BYTES];
