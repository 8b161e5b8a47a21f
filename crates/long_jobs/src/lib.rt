// Binarize: a long job whose rules have bodies of up to eight symbols is written as an ordinary job.
#![tactic(auto)]

pub mod theorems;

// How far a conversion is: how many free variables are taken, and how many records are written.
// Kept (6): no heap, fixed memory: the records stand in front of a lent array of fixed size, and count says how many.
#[derive(Clone, Copy)]
pub struct Progress {
    pub taken: usize,
    pub count: usize,
}

// Where the second walk stands: how far its conversion is, and how many rules are written.
#[derive(Clone, Copy)]
pub struct WalkState {
    pub progress: Progress,
    pub rules: usize,
}
