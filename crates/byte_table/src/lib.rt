// The byte table: start and advance on 65,536 bytes. The machine runs on a bit table of the call's own: what the bytes
// say is packed into it, and where the machine has left a place that says something new, its byte is written.
#![tactic(auto)]

use machine::Ended;

pub mod operations;
pub mod run;

// What a run from a start leaves to say: the number of states, and what the steps come to.
#[derive(Clone, Copy)]
pub struct RunFromStart {
    pub states: usize,
    pub ended: Ended,
}
