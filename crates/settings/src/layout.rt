// The editions, and the bytes of a block, one at a time.
ghost use Rattle.std.specs.Prelude.{◌≡◌, ◌+◌, ◌*◌, ◌≤◌, length};
ghost use Rattle.settings.specs.Block.{bad, entry_byte, list_byte, byte_of, entry_place};
ghost use Rattle.settings.specs.Edition.{number_of, Numbered};

use bits::refusal::Refusal;

// The two editions of a block.
#[derive(Clone, Copy, Debug, PartialEq, Eq)]
pub(crate) enum Edition {
    First,
    Second,
}

impl TryFrom<u32> for Edition {
    type Error = Refusal;

    ghost try_from_gives = { Numbered };

    #[tactic(auto, unfolding(crate::specs::Block::known))]
    fn try_from(number: u32) -> Result<Edition, Refusal> {
        match number {
            1 => Ok(Edition::First),
            2 => Ok(Edition::Second),
            _ => Err(Refusal::Kind),
        }
    }
}

impl Edition {
    pub(crate) fn number(self) -> u8
        ensures { result ≡ number_of self }
    {
        match self {
            Edition::First => 1,
            Edition::Second => 2,
        }
    }

    // Whether an entry may not stand in a block: a number above 4,095 or, in edition 2, a priority above 7. In this form a loop
    // over the entries asks for the edition once.
    pub(crate) fn forbids(self, number: u16, priority: u8) -> bool
        ensures { result ≡ bad (number_of self) number priority }
    {
        if 4095 < number {
            return true;
        }
        match self {
            Edition::First => false,
            Edition::Second => 7 < priority,
        }
    }

    // Where entry k starts.
    pub(crate) fn entry_place(self, k: usize) -> usize
        requires { k ≤ 64 }
        ensures { (result ≡ entry_place (number_of self) k) × (result ≤ 4 + k * 3) }
    {
        match self {
            Edition::First => 4 + k * 2,
            Edition::Second => 4 + k * 3,
        }
    }
}

// Byte i of the first 509 of a block.
#[tactic(auto, unfolding(crate::specs::Block::byte_of))]
pub(crate) fn byte_of(
    edition: Edition,
    index: u16,
    numbers: &[u16],
    priorities: &[u8],
    i: usize,
) -> u8
    requires { (length numbers.now ≡ length priorities.now) × (length numbers.now ≤ 64) }
    ensures { result ≡ byte_of (number_of edition) index numbers.now priorities.now i }
{
    let [high, low] = index.to_be_bytes();
    match i {
        0 => high,
        1 => low,
        2 => edition.number(),
        3 => numbers.len() as u8,
        _ => list_byte(edition, numbers, priorities, i - 4),
    }
}

// Byte i behind the first four.
#[tactic(auto, unfolding(crate::specs::Block::list_byte))]
fn list_byte(edition: Edition, numbers: &[u16], priorities: &[u8], i: usize) -> u8
    requires { length numbers.now ≡ length priorities.now }
    ensures { result ≡ list_byte (number_of edition) numbers.now priorities.now i }
{
    match edition {
        Edition::First => entry_byte(numbers, priorities, i / 2, i % 2),
        Edition::Second => entry_byte(numbers, priorities, i / 3, i % 3),
    }
}

// Byte j of entry k: the number, high byte first, and its priority; 0 where there is no such entry.
#[tactic(auto, unfolding(crate::specs::Block::entry_byte))]
fn entry_byte(numbers: &[u16], priorities: &[u8], k: usize, j: usize) -> u8
    requires { length numbers.now ≡ length priorities.now }
    ensures { result ≡ entry_byte numbers.now priorities.now k j }
{
    if numbers.len() <= k {
        return 0;
    }
    let [high, low] = numbers[k].to_be_bytes();
    match j {
        0 => high,
        1 => low,
        _ => priorities[k],
    }
}
