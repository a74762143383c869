// What a frame holds: a whole message with its header, or the block of one at a named data bit.
use bits::refusal::Refusal;
use messages::answer::Records;
use messages::bias::{Bias1059, Bias1230};
use messages::signals::Signal;
use messages::{read1059 as block1059, read1230 as block1230, signals, signals1059};
use whole::answer::{Header1059, Header1230, Message1059, Message1230};
use whole::{read1059, read1230};

// The systems whose biases have a message: GPS 1059, and GLONASS 1230.
#[derive(Clone, Copy, PartialEq, Eq)]
pub enum System {
    Gps,
    Glonass,
}

impl System {
    // The system of the frame's message, if it is one of the two.
    pub fn of_frame(frame: &[u8]) -> Option<System> {
        match reading::number_of(frame)? {
            1059 => Some(System::Gps),
            1230 => Some(System::Glonass),
            _ => None,
        }
    }

    // The number of its message.
    pub fn message(self) -> u16 {
        match self {
            System::Gps => 1059,
            System::Glonass => 1230,
        }
    }

    // The data bit behind the header of its message.
    pub fn behind_header(self) -> usize {
        match self {
            System::Gps => 61,
            System::Glonass => 28,
        }
    }

    // The signal that a number stands for: message 1059 has a table of its own, by edition, 1230 that of GLONASS.
    pub fn signal(self, edition: u32, number: u8) -> Option<Signal> {
        match self {
            System::Gps => signal_of_1059(edition, u32::from(number)),
            System::Glonass => signals::signal_of(1, u32::from(number)),
        }
    }

    // A raw bias of its message, whose kind knows its unit, in hundredths of a metre.
    pub fn hundredths(self, bias: i16) -> i32 {
        match self {
            System::Gps => Bias1059(bias).hundredths(),
            System::Glonass => Bias1230(bias).hundredths(),
        }
    }
}

// The signal of message 1059; none where there is no such edition too.
pub fn signal_of_1059(edition: u32, number: u32) -> Option<Signal> {
    signals1059::signal_of_1059(edition, number).unwrap_or(None)
}

// What stands before a block.
#[derive(Clone, Copy)]
pub enum Head {
    Of1059(Header1059),
    Of1230(Header1230),
}

// What was found in the data of a message: its head, unless the block was read at another data bit than that of the
// standard; how many records there are, and the bit behind them.
#[derive(Clone, Copy)]
pub struct Found {
    pub head: Option<Head>,
    pub count: usize,
    pub end: usize,
}

impl From<Message1059> for Found {
    fn from(message: Message1059) -> Found {
        Found {
            head: Some(Head::Of1059(message.header)),
            count: message.count,
            end: message.end,
        }
    }
}

impl From<Message1230> for Found {
    fn from(message: Message1230) -> Found {
        Found {
            head: Some(Head::Of1230(message.header)),
            count: message.count,
            end: message.end,
        }
    }
}

impl From<Records> for Found {
    fn from(records: Records) -> Found {
        Found {
            head: None,
            count: records.count,
            end: records.end,
        }
    }
}

// The records of a message, in three lists as the library fills them. Those of 1230 have no satellite.
#[derive(Drop)]
pub struct Lists {
    pub satellites: [u8; 422],
    pub signals: [u8; 422],
    pub biases: [i16; 422],
}

impl Lists {
    pub fn new() -> Lists {
        Lists {
            satellites: [0; 422],
            signals: [0; 422],
            biases: [0; 422],
        }
    }

    // Reads the system's message: the whole of it where its block starts at its place, else the block alone from data bit
    // `start` on.
    pub fn read(&mut self, system: System, data: &[u8], start: usize) -> Result<Found, Refusal> {
        if start != system.behind_header() {
            return Ok(Found::from(self.block(system, data, start)?));
        }
        match system {
            System::Gps => Ok(Found::from(self.whole_1059(data)?)),
            System::Glonass => Ok(Found::from(self.whole_1230(data)?)),
        }
    }

    // Reads a whole message 1059.
    pub fn whole_1059(&mut self, data: &[u8]) -> Result<Message1059, Refusal> {
        let Lists {
            satellites,
            signals,
            biases,
        } = self;
        read1059::read(data, satellites, signals, biases)
    }

    fn whole_1230(&mut self, data: &[u8]) -> Result<Message1230, Refusal> {
        let Lists {
            signals,
            biases,
            ..
        } = self;
        read1230::read(data, signals, biases)
    }

    // Reads the block alone.
    fn block(&mut self, system: System, data: &[u8], start: usize) -> Result<Records, Refusal> {
        let Lists {
            satellites,
            signals,
            biases,
        } = self;
        match system {
            System::Gps => block1059::read(data, start, satellites, signals, biases),
            System::Glonass => block1230::read(data, start, signals, biases),
        }
    }
}
