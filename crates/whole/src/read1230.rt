// Reading whole messages 1230.
ghost use Rattle.std.specs.Prelude.{◌≡◌};
ghost use Rattle.bits.specs.Told.{Accepted};
ghost use Rattle.bits.specs.Outcome.{outcome};
ghost use Rattle.bits.specs.Field.{reading, read_unsigned};
ghost use Rattle.whole.specs.Headers.{front1230};
ghost use Rattle.whole.specs.Messages.{read_message1230};
ghost use Rattle.whole.specs.Answers.{told_message1230};
ghost use Rattle.whole.specs.Steps.{told_front1230};

use crate::answer::{Header1230, Message1230};
use bits::field;
use bits::refusal::Refusal;
use messages::read1230;

// Reads the message. The first places of the lists take its records, once all of it is read and they have room.
pub fn read(bytes: &[u8], signals: &mut [u8], biases: &mut [i16]) -> Result<Message1230, Refusal>
    ensures { outcome (told_message1230 result) (signals.new, biases.new) ≡ read_message1230 bytes.now signals.old biases.old }
{
    if 1023 < bytes.len() {
        return Err(Refusal::Size);
    }
    if signals.len() != biases.len() {
        return Err(Refusal::Size);
    }
    let header = begin(bytes)?;
    let block = read1230::read(bytes, 28, signals, biases)?;
    Ok(Message1230 {
        header,
        count: block.count,
        end: block.end,
    })
}

// The front of the message: what stands before the block.
fn begin(bytes: &[u8]) -> Result<Header1230, Refusal>
    ensures { told_front1230 result ≡ front1230.reads bytes.now 0 }
{
    let (number, at) = field::read_unsigned(bytes, 0, 12)?; // DF002: the message number.
    if number != 1230 {
        return Err(Refusal::Kind);
    }
    header_at(bytes, at)
}

// What stands behind the message number and before the block.
fn header_at(bytes: &[u8], start: usize) -> Result<Header1230, Refusal>
    requires { Accepted (reading 1230 start) ≡ read_unsigned bytes.now 0 12 }
    ensures { told_front1230 result ≡ front1230.reads bytes.now 0 }
{
    let (station, at) = field::read_unsigned(bytes, start, 12)?;
    let (indicator, at) = field::read_unsigned(bytes, at, 1)?;
    let (reserved, _) = field::read_unsigned(bytes, at, 3)?;
    Ok(Header1230 {
        station: station as u32,
        indicator: indicator as u32,
        reserved: reserved as u32,
    })
}
