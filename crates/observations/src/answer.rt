// What a message 1001 says, and what reading one answers.

// What stands before the observations, but for the count: DF003, DF004, DF005, DF007 and DF008.
#[derive(Clone, Copy, Debug, PartialEq, Eq)]
pub struct Header {
    pub station: u32,
    pub epoch: u32,
    pub synchronous: u32,
    pub smoothing: u32,
    pub interval: u32,
}

// What is observed of one satellite, in raw numbers: DF009 to DF013.
#[derive(Clone, Copy, Debug, PartialEq, Eq)]
pub struct Observation {
    pub satellite: u8,
    pub code: u8,
    pub pseudorange: u32,
    pub phase: i32,
    pub lock: u8,
}

// What reading the message answers: its header, how many observations there are, and the bit behind the message.
#[derive(Clone, Copy, Debug, PartialEq, Eq)]
pub struct Message {
    pub header: Header,
    pub count: usize,
    pub end: usize,
}
