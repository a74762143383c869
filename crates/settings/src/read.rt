// Reading a settings block.
ghost use Rattle.std.specs.Prelude.{◌≡◌, ◌≤◌, ◌<◌, ◌^◌, ◌*◌, ◌+◌, length, IfOk, MatchResult, true, false};
ghost use Rattle.bits.specs.Outcome.{outcome};
ghost use Rattle.bits.specs.Refusals.{told};
ghost use Rattle.bits.specs.Field.{field};
ghost use Rattle.bits.specs.Onto.{onto};
ghost use Rattle.settings.specs.Block.{numbers_in, priorities_in};
ghost use Rattle.settings.specs.Edition.{number_of};
ghost use Rattle.settings.specs.Entries.{found_in};
ghost use Rattle.settings.specs.Read.{can_read, judge_entries, judge, read_settings};
ghost use Rattle.settings.specs.Answers.{told_read};

use crate::entries::Entries;
use crate::layout::Edition;
use bits::crc;
use bits::refusal::Refusal;

// What was read: how many numbers, and the block's edition.
#[derive(Clone, Copy, Debug, PartialEq, Eq)]
pub struct Settings {
    pub count: usize,
    pub edition: u32,
}

// Reads the block of this index, for a reader of edition 1 or 2, into lists of 64 places each. Range carries the index of
// the bad number or priority; 0 for the block's index, its count and its filler.
pub fn read(
    block: &[u8],
    reader: u32,
    index: u32,
    numbers: &mut [u16],
    priorities: &mut [u8],
) -> Result<Settings, Refusal>
    ensures { outcome (told_read result) (numbers.new, priorities.new) ≡ read_settings block.now reader index numbers.old priorities.old }
{
    if numbers.len() != 64 || priorities.len() != 64 {
        return Err(Refusal::Size);
    }
    let entries = judge(block, reader, index)?;
    take(&entries, numbers, priorities);
    Ok(Settings {
        count: entries.count,
        edition: u32::from(entries.edition.number()),
    })
}

// What reading answers of the block, before anything is written.
fn judge(block: &[u8], reader: u32, index: u32) -> Result<Entries<'_>, Refusal>
    ensures tells { told found_in result ≡ judge block.now reader index }
    ensures of_block { IfOk result (λ e. e.block.now ≡ block.now) }
{
    if block.len() != 512 {
        return Err(Refusal::Size);
    }
    let sent = three_at(block, 509);
    let computed = crc::crc24q(&block[0..509]);
    if sent != computed {
        return Err(Refusal::BadCheck { sent, computed });
    }
    let edition = readable(reader, u32::from(block[2]))?;
    if u32::from(u16::from_be_bytes([block[0], block[1]])) != index {
        return Err(Refusal::Range(0));
    }
    let count = usize::from(block[3]);
    if 64 < count {
        return Err(Refusal::Range(0));
    }
    judge_entries(Entries {
        block,
        edition,
        count,
    })
}

// The rest of it, for a block whose length, checksum, edition, index and count are good.
fn judge_entries(entries: Entries<'_>) -> Result<Entries<'_>, Refusal>
    ensures tells { told found_in result ≡ judge_entries entries.entry.block.now }
    ensures of_block { IfOk result (λ e. e.block.now ≡ entries.entry.block.now) }
{
    if let Some(k) = entries.first_bad() {
        return Err(Refusal::Range(k));
    }
    if !entries.is_filled() {
        return Err(Refusal::Range(0));
    }
    Ok(entries)
}

// The edition of a block, for a reader that reads it.
#[tactic(auto, unfolding(crate::specs::Read::can_read))]
fn readable(reader: u32, edition: u32) -> Result<Edition, Refusal>
    ensures { MatchResult result (λ e. (number_of e ≡ edition) × (can_read reader edition ≡ true)) (λ r. (r ≡ Refusal.Kind) × (can_read reader edition ≡ false)) }
{
    match (Edition::try_from(reader)?, Edition::try_from(edition)?) {
        (Edition::First, Edition::Second) => Err(Refusal::Kind),
        (_, edition) => Ok(edition),
    }
}

// Writes the numbers and the priorities of all entries to the fronts of the lists.
fn take(entries: &Entries<'_>, numbers: &mut [u16], priorities: &mut [u8])
    requires { (length numbers.old ≡ 64) × (length priorities.old ≡ 64) }
    ensures numbers { numbers.new ≡ onto (numbers_in entries.now.block.now) numbers.old }
    ensures priorities { priorities.new ≡ onto (priorities_in entries.now.block.now) priorities.old }
{
    for k in 0..entries.count {
        numbers[k] = entries.number(k);
        priorities[k] = entries.priority(k);
    }
}

// The three bytes from byte i on, highest first. The same stands in frames: a public function may ask nothing of its caller.
fn three_at(bytes: &[u8], i: usize) -> u32
    requires { i + 3 ≤ length bytes.now }
    ensures { (result ≡ field bytes.now (i * 8) 24) × (result < 2 ^ 24) }
{
    u32::from_be_bytes([0, bytes[i], bytes[i + 1], bytes[i + 2]])
}
