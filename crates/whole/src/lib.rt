// Whole messages 1059 and 1230: the number, the header and the bias block, read and written.
//
// `specs/` says what each function answers: read it first. A refused call writes nothing.
#![tactic(auto)]

pub mod answer;
mod behind;
mod put;
pub mod read1059;
pub mod read1230;
pub mod write1059;
pub mod write1230;
