// Why a byte of an RTCM recording is given up.
ghost use Rattle.std.specs.Prelude.{◌≡◌};
ghost use Rattle.closing.specs.Reason.{ruled_at, told_ruled, by_byte, told_skip};

use bits::refusal::Refusal;
use frames::frame;

// What closing makes of a byte: it is given up, as not D3, as a D3 whose checksum was wrong or as a D3 that starts an
// unfinished candidate; or a frame of so many bytes starts there.
#[derive(Clone, Copy, Debug, PartialEq, Eq)]
pub enum Ruled {
    NotD3,
    BadCheck { sent: u32, computed: u32 },
    Unfinished,
    Frame(usize),
}

// Why a byte was skipped while feeding RTCM.
#[derive(Clone, Copy, Debug, PartialEq, Eq)]
pub enum Skip {
    NotD3,
    BadCheck,
}

// What closing makes of the byte at a place, where the bytes run to the end of the recording. Size: there is no such byte.
pub fn at(bytes: &[u8], place: usize) -> Result<Ruled, Refusal>
    ensures { told_ruled result ≡ ruled_at bytes.now place }
{
    let all = bytes.len();
    if all <= place {
        return Err(Refusal::Size);
    }
    if bytes[place] != 0xD3 {
        return Ok(Ruled::NotD3);
    }
    match frame::check(&bytes[place..all]) {
        Ok(found) => Ok(Ruled::Frame(found.length)),
        Err(refusal) => match refusal {
            Refusal::BadCheck { sent, computed } => Ok(Ruled::BadCheck { sent, computed }),
            // The check of a D3 refuses for nothing else.
            _ => Ok(Ruled::Unfinished),
        },
    }
}

// Why a byte that was skipped while feeding a scanner for RTCM alone was skipped: the byte itself tells.
pub fn skipped(byte: u8) -> Skip
    ensures { told_skip result ≡ by_byte 0 byte }
{
    if byte == 0xD3 {
        return Skip::BadCheck;
    }
    Skip::NotD3
}
