// The very bytes that the programs print, written into a lent buffer.
#![tactic(auto)]

pub mod operations;
mod outputs;
pub mod theorems;

// What the report says of a job: a refusal's number and place, 0 and 0 where nothing is refused, and the six values.
// Kept (1): the definition `report_output_lem`, of which the theorems `AsPrinted` and `OutputsFit` speak, reads the
// number 0 as no refusal, and so do the definitions of crate `reports`.
#[derive(Clone, Copy)]
pub struct Report {
    pub number: usize,
    pub place: usize,
    pub states: usize,
    pub examined: u64,
    pub joins: u64,
    pub start: bool,
    pub empty: bool,
    pub growing: bool,
}

// What writing an output answers: a refusal's number and place, 0 and 0 where nothing is refused, and the bytes written.
// Kept (1): the clauses of `report_output`, `codes_output` and `explain_output` promise just these numbers, by
// `written_of`.
#[derive(Clone, Copy)]
pub struct Written {
    pub number: usize,
    pub place: usize,
    pub bytes: usize,
}
