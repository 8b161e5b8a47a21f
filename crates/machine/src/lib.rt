// The machine as definitions: the table and the reasons, start, one step, advance, the smallest set, reasons and turns;
// and what is proved of them. There is no code here but the shapes of the answers.
#![tactic(auto)]

pub mod theorems;

// What steps come to: whether no pending byte is left, the steps made and the rise in pair meetings.
#[derive(Clone, Copy)]
pub struct Ended {
    pub finished: bool,
    pub steps: u64,
    pub meetings: u64,
}

// A rule A → Y Z and its rank.
#[derive(Clone, Copy)]
pub struct PairRule {
    pub head: u8,
    pub second: u8,
    pub third: u8,
    pub rank: u16,
}

// A walk over 32 partners of a taken transition: the place of the first partner, that of what it gives and that of
// its entry among the reasons, and the strides to the next ones. The partner at the skipped place is left out; each
// other that is done gives its transition with the entry.
#[derive(Clone, Copy)]
pub struct PartnerWalk {
    pub partner: usize,
    pub place: usize,
    pub stride: usize,
    pub reason_place: usize,
    pub reason_stride: usize,
    pub skipped: usize,
    pub entry: u32,
}
