// The refusals: each call of the library that cannot do what it is asked for answers with one of these.
ghost use Rattle.std.specs.Prelude.{◌≡◌};
ghost use Rattle.bits.specs.Refusals.{number_of, carried_pair};

// What a refused call answers, and the numbers that it carries. `specs/Told.antt` has the table.
#[derive(Clone, Copy, Debug, PartialEq, Eq)]
pub enum Refusal {
    // The bit where the first field starts that does not fit, and how many of its bits are missing.
    Short { place: usize, missing: usize },
    Width,
    // Range, Signal, Satellite and Duplicate carry the index of a record; Range of no record carries 0.
    Range(usize),
    Signal(usize),
    Satellite(usize),
    // The lowest satellite with too many biases, else the number that is one too many.
    TooMany(usize),
    Duplicate(usize),
    // What the output would need.
    Room(usize),
    Size,
    NoPreamble,
    State,
    Incomplete,
    Kind,
    BadCheck { sent: u32, computed: u32 },
    Full,
    Absent,
}

impl Refusal {
    // Its number in the table.
    pub fn number(self) -> u32
        ensures { result ≡ number_of self }
    {
        match self {
            Refusal::Short { .. } => 1,
            Refusal::Width => 2,
            Refusal::Range(_) => 3,
            Refusal::Signal(_) => 4,
            Refusal::Satellite(_) => 5,
            Refusal::TooMany(_) => 6,
            Refusal::Duplicate(_) => 7,
            Refusal::Room(_) => 8,
            Refusal::Size => 9,
            Refusal::NoPreamble => 10,
            Refusal::State => 11,
            Refusal::Incomplete => 12,
            Refusal::Kind => 13,
            Refusal::BadCheck { .. } => 14,
            Refusal::Full => 15,
            Refusal::Absent => 16,
        }
    }

    // The numbers that it carries, at most two, with 0 in the places behind them.
    pub fn carried(self) -> [u64; 2]
        ensures { result ≡ carried_pair self }
    {
        match self {
            Refusal::Short { place, missing } => [place as u64, missing as u64],
            Refusal::Range(index) => [index as u64, 0],
            Refusal::Signal(index) => [index as u64, 0],
            Refusal::Satellite(index) => [index as u64, 0],
            Refusal::TooMany(which) => [which as u64, 0],
            Refusal::Duplicate(index) => [index as u64, 0],
            Refusal::Room(needed) => [needed as u64, 0],
            Refusal::BadCheck { sent, computed } => [sent as u64, computed as u64],
            _ => [0, 0],
        }
    }
}
