// Message 1001: GPS L1 observations, read into and written from lists of raw numbers, and what a raw number measures.
//
// `specs/` says what each function answers: read it first. A refused call writes nothing.
#![tactic(auto)]

pub mod answer;
pub mod measured;
mod put;
pub mod read;
pub mod write;
