// Headers of messages, and what reading a message answers. Writing one answers as writing its block does.

// What stands between the number and the block of message 1059.
#[derive(Clone, Copy, Debug, PartialEq, Eq)]
pub struct Header1059 {
    pub epoch: u32,
    pub interval: u32,
    pub multiple: u32,
    pub iod: u32,
    pub provider: u32,
    pub solution: u32,
}

// What reading message 1059 answers: its header, how many records there are, and the bit behind the message.
#[derive(Clone, Copy, Debug, PartialEq, Eq)]
pub struct Message1059 {
    pub header: Header1059,
    pub count: usize,
    pub end: usize,
}

// What stands between the number and the block of message 1230.
#[derive(Clone, Copy, Debug, PartialEq, Eq)]
pub struct Header1230 {
    pub station: u32,
    pub indicator: u32,
    pub reserved: u32,
}

// What reading message 1230 answers: its header, how many records there are, and the bit behind the message.
#[derive(Clone, Copy, Debug, PartialEq, Eq)]
pub struct Message1230 {
    pub header: Header1230,
    pub count: usize,
    pub end: usize,
}
