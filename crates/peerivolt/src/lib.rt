// The C surface: every function is called with numbers and areas, returns 0 or the number of a refusal, and spreads the
// rest over the extra area of eight numbers. `include/peerivolt.h` says the same to a C programmer.
#![tactic(auto, using(crate::proofs::AnswerLaws::answers))]

pub mod all_frames;
pub mod biases;
pub mod blocks;
pub mod comparing;
pub mod entries;
mod extra;
pub mod fields;
pub mod message_1001;
pub mod message_1059;
pub mod message_1230;
pub mod one_frame;
pub mod recording_end;
pub mod scanner;
pub mod signals;
pub mod signals1059;
pub mod version;
pub mod why;
