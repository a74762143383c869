// All frames of a piece in one call: where they start, how long they are and of which kind, with no copy of a frame that
// lies in the piece.
//
// `specs/` says what each function answers: read it first. A refused call writes nothing.
#![tactic(auto)]

mod copy;
pub mod feed;
mod walk;
