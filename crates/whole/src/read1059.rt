// Reading whole messages 1059.
ghost use Rattle.std.specs.Prelude.{◌≡◌};
ghost use Rattle.bits.specs.Told.{Accepted};
ghost use Rattle.bits.specs.Outcome.{outcome};
ghost use Rattle.bits.specs.Field.{reading, read_unsigned};
ghost use Rattle.whole.specs.Headers.{front1059};
ghost use Rattle.whole.specs.Messages.{read_message1059};
ghost use Rattle.whole.specs.Answers.{told_message1059};
ghost use Rattle.whole.specs.Steps.{told_front1059};

use crate::answer::{Header1059, Message1059};
use bits::field;
use bits::refusal::Refusal;
use messages::read1059;

// Reads the message. The first places of the lists take its records, once all of it is read and they have room.
pub fn read(
    bytes: &[u8],
    satellites: &mut [u8],
    signals: &mut [u8],
    biases: &mut [i16],
) -> Result<Message1059, Refusal>
    ensures { outcome (told_message1059 result) (satellites.new, signals.new, biases.new) ≡ read_message1059 bytes.now satellites.old signals.old biases.old }
{
    if 1023 < bytes.len() {
        return Err(Refusal::Size);
    }
    if satellites.len() != signals.len() {
        return Err(Refusal::Size);
    }
    if satellites.len() != biases.len() {
        return Err(Refusal::Size);
    }
    let header = begin(bytes)?;
    let block = read1059::read(bytes, 61, satellites, signals, biases)?;
    Ok(Message1059 {
        header,
        count: block.count,
        end: block.end,
    })
}

// The front of the message: what stands before the block.
fn begin(bytes: &[u8]) -> Result<Header1059, Refusal>
    ensures { told_front1059 result ≡ front1059.reads bytes.now 0 }
{
    let (number, at) = field::read_unsigned(bytes, 0, 12)?; // DF002: the message number.
    if number != 1059 {
        return Err(Refusal::Kind);
    }
    header_at(bytes, at)
}

// What stands behind the message number and before the block.
fn header_at(bytes: &[u8], start: usize) -> Result<Header1059, Refusal>
    requires { Accepted (reading 1059 start) ≡ read_unsigned bytes.now 0 12 }
    ensures { told_front1059 result ≡ front1059.reads bytes.now 0 }
{
    let (epoch, at) = field::read_unsigned(bytes, start, 20)?;
    let (interval, at) = field::read_unsigned(bytes, at, 4)?;
    let (multiple, at) = field::read_unsigned(bytes, at, 1)?;
    let (iod, at) = field::read_unsigned(bytes, at, 4)?;
    let (provider, at) = field::read_unsigned(bytes, at, 16)?;
    let (solution, _) = field::read_unsigned(bytes, at, 4)?;
    Ok(Header1059 {
        epoch: epoch as u32,
        interval: interval as u32,
        multiple: multiple as u32,
        iod: iod as u32,
        provider: provider as u32,
        solution: solution as u32,
    })
}
