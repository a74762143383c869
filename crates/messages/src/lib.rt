// Signal tables, the two kinds of raw bias, and the bias blocks of messages 1059 and 1230.
//
// `specs/` says what each function answers: read it first. A refused call writes nothing.
#![tactic(auto)]

pub mod answer;
pub mod bias;
mod pen;
mod put;
pub mod read1059;
pub mod read1230;
pub mod signals;
pub mod signals1059;
pub mod write1059;
pub mod write1230;
