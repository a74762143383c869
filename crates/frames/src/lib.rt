// Frames in a stream of bytes: one frame, the whole-stream scan, and the scanner over pieces.
//
// `specs/` says what each function answers: read it first. A refused call writes nothing.
#![tactic(auto)]

pub mod close;
pub mod fate;
pub mod frame;
pub mod list;
mod list_many;
mod many;
mod mode;
pub mod scan;
pub mod scanner;
mod ubx;
