// Writing whole messages 1059.
ghost use Rattle.std.specs.Prelude.{◌≡◌, true};
ghost use Rattle.bits.specs.Outcome.{outcome};
ghost use Rattle.formats.specs.Put.{RoomFor, IsPut};
ghost use Rattle.messages.specs.Signals1059.{is_edition};
ghost use Rattle.messages.specs.Answers.{told_block};
ghost use Rattle.whole.specs.Headers.{header_fits1059, fields1059};
ghost use Rattle.whole.specs.Messages.{write_message1059};

use crate::answer::Header1059;
use crate::behind::behind;
use crate::put;
use bits::refusal::Refusal;
use messages::write1059;

// Writes the message of the header and the records from bit 0 on.
pub fn write(
    edition: u32,
    bytes: &mut [u8],
    header: Header1059,
    satellites: &[u8],
    signals: &[u8],
    biases: &[i16],
) -> Result<usize, Refusal>
    ensures { outcome (told_block result) bytes.new ≡ write_message1059 edition bytes.old header satellites.now signals.now biases.now }
{
    if !is_edition(edition) {
        return Err(Refusal::Kind);
    }
    if 1023 < bytes.len() {
        return Err(Refusal::Size);
    }
    if satellites.len() != signals.len() {
        return Err(Refusal::Size);
    }
    if satellites.len() != biases.len() {
        return Err(Refusal::Size);
    }
    if 1953 < satellites.len() {
        return Err(Refusal::Size);
    }
    if !header_fits(header) {
        return Err(Refusal::Range(0));
    }
    match write1059::write(edition, bytes, 61, satellites, signals, biases) {
        Ok(end) => {
            put_front(bytes, header);
            Ok(end)
        }
        Err(refusal) => Err(behind(61, refusal)),
    }
}

// Whether there is such an edition of the signals.
fn is_edition(edition: u32) -> bool
    ensures { result ≡ is_edition edition }
{
    0 < edition && edition < 3
}

// Whether the numbers of a header fit their fields.
fn header_fits(header: Header1059) -> bool
    ensures { result ≡ header_fits1059 header }
{
    header.epoch < 0x10_0000
        && header.interval < 16
        && header.multiple < 2
        && header.iod < 16
        && header.provider < 0x1_0000
        && header.solution < 16
}

// The message number and the header.
fn put_front(bytes: &mut [u8], header: Header1059)
    requires { RoomFor bytes.old 0 (fields1059 header) × (header_fits1059 header ≡ true) }
    ensures { IsPut bytes.old 0 (fields1059 header) bytes.new 61 }
{
    let at = put::unsigned(bytes, 0, 12, 1059);
    let at = put::unsigned(bytes, at, 20, header.epoch);
    let at = put::unsigned(bytes, at, 4, header.interval);
    let at = put::unsigned(bytes, at, 1, header.multiple);
    let at = put::unsigned(bytes, at, 4, header.iod);
    let at = put::unsigned(bytes, at, 16, header.provider);
    let _end = put::unsigned(bytes, at, 4, header.solution);
}
