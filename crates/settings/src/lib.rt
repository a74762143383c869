// The relay's list of passed message numbers, in blocks of 512 bytes that outlive a software update.
//
// `specs/Block.antt` says what a block is; `specs/Read.antt` and `specs/Write.antt` what the two calls answer.
#![tactic(auto)]

mod entries;
mod layout;
pub mod read;
pub mod write;
