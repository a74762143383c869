// Writing whole messages 1230.
ghost use Rattle.std.specs.Prelude.{◌≡◌, true};
ghost use Rattle.bits.specs.Outcome.{outcome};
ghost use Rattle.formats.specs.Put.{RoomFor, IsPut};
ghost use Rattle.messages.specs.Answers.{told_block};
ghost use Rattle.whole.specs.Headers.{header_fits1230, fields1230};
ghost use Rattle.whole.specs.Messages.{write_message1230};

use crate::answer::Header1230;
use crate::behind::behind;
use crate::put;
use bits::refusal::Refusal;
use messages::write1230;

// Writes the message of the header and the records from bit 0 on.
pub fn write(
    bytes: &mut [u8],
    header: Header1230,
    signals: &[u8],
    biases: &[i16],
) -> Result<usize, Refusal>
    ensures { outcome (told_block result) bytes.new ≡ write_message1230 bytes.old header signals.now biases.now }
{
    if 1023 < bytes.len() {
        return Err(Refusal::Size);
    }
    if signals.len() != biases.len() {
        return Err(Refusal::Size);
    }
    if 4 < signals.len() {
        return Err(Refusal::Size);
    }
    if !header_fits(header) {
        return Err(Refusal::Range(0));
    }
    match write1230::write(bytes, 28, signals, biases) {
        Ok(end) => {
            put_front(bytes, header);
            Ok(end)
        }
        Err(refusal) => Err(behind(28, refusal)),
    }
}

// Whether the numbers of a header fit their fields.
fn header_fits(header: Header1230) -> bool
    ensures { result ≡ header_fits1230 header }
{
    header.station < 4096 && header.indicator < 2 && header.reserved < 8
}

// The message number and the header.
fn put_front(bytes: &mut [u8], header: Header1230)
    requires { RoomFor bytes.old 0 (fields1230 header) × (header_fits1230 header ≡ true) }
    ensures { IsPut bytes.old 0 (fields1230 header) bytes.new 28 }
{
    let at = put::unsigned(bytes, 0, 12, 1230);
    let at = put::unsigned(bytes, at, 12, header.station);
    let at = put::unsigned(bytes, at, 1, header.indicator);
    let _end = put::unsigned(bytes, at, 3, header.reserved);
}
