// What a step goes over: a transition's byte and its entry among the reasons, its partners, and the rules by the
// symbols of their bodies.
#![tactic(auto)]

pub mod clear;
pub mod step;
pub mod table;
pub mod users;

// How many places of a table a state's transitions take: 64 rows of 32.
pub const STATE_PLACES: usize = 2048;

// How many reasons a state's transitions take: those of the 32 variables' rows.
pub const STATE_REASONS: usize = 1024;

// The rows of a table: one of 32 places for each state and symbol.
pub const ROWS: usize = 2048;

// The ranks that an index of the rules holds: of each symbol those of up to 256 rules.
pub const USER_RANKS: usize = 16384;

// The reason of a given transition.
pub const GIVEN_REASON: u16 = 65535;

// What a turn counts for in an entry of the reasons: the reason itself is below it.
pub const TURN: u32 = 65536;

// The steps that finish any table: one for each place.
pub const MOST_STEPS: u64 = 65536;

// A place past every table, by a power of two that no sum of a place's parts reaches.
pub const NO_PLACE: usize = 131072;
