// The report on a job: a run to the end, the start symbol asked, and the verdicts, as one call.
#![tactic(auto)]

pub mod operation;
