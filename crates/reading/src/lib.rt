// Frames of a recording, which is a file or standard input and is read in pieces, with an account of every byte.
#![tactic(auto)]

mod account;
pub mod arguments;
pub mod asked;
pub mod load;
mod number;
mod program;
mod recording;
pub mod skips;
mod source;
mod visit;

pub use account::{Account, Found, Mode};
pub use number::{frame_of, number_of};
pub use program::{Failure, Program};
pub use recording::{Before, Recording, Step};
pub use source::Source;
pub use visit::Visit;
