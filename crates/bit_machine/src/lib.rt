// The bit table as definitions: the two halves, what they say of a place, and the machine on them; and what is proved
// of it. There is no code here but the shape of an answer.
#![tactic(auto)]

pub mod theorems;
