// What the readers of bias blocks answer.

// How many records a block has, and the bit behind it.
#[derive(Clone, Copy, Debug, PartialEq, Eq)]
pub struct Records {
    pub count: usize,
    pub end: usize,
}
