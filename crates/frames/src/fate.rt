// Why a byte of a recording is where it is: in a frame, skipped, or held at the end.
ghost use Rattle.std.specs.Prelude.{◌≡◌, ◌<◌, length, drop};
ghost use Rattle.frames.specs.Scan.{Skip, scan};
ghost use Rattle.frames.specs.Framing.{decide};
ghost use Rattle.frames.specs.Rtcm.{Why, rtcm};
ghost use Rattle.frames.specs.Fate.{skipped_fate, fate_on, fate_of, known_fate, told_fate};

use crate::scan::Next;
use crate::{frame, scan};
use bits::refusal::Refusal;

// What became of a byte: it is part of the frame of so many bytes at a place; it is not D3, and skipped; it is a D3 whose
// checksum was wrong, and skipped; or it is held, from the unfinished candidate at a place to the end.
#[derive(Clone, Copy, Debug, PartialEq, Eq)]
pub enum Fate {
    InFrame {
        place: usize,
        length: usize,
    },
    NotD3(usize),
    BadCheck {
        place: usize,
        sent: u32,
        computed: u32,
    },
    Held {
        place: usize,
        length: usize,
    },
}

// What the whole-stream scan of a recording makes of the byte at a place. Size is a recording above 65,536 bytes, or no
// such byte.
pub fn of(recording: &[u8], place: usize) -> Result<Fate, Refusal>
    ensures { told_fate result ≡ fate_of recording.now place }
{
    if 65536 < recording.len() {
        return Err(Refusal::Size);
    }
    if recording.len() <= place {
        return Err(Refusal::Size);
    }
    Ok(walk(recording, place))
}

// Goes from frame to frame until the byte is reached or passed.
fn walk(recording: &[u8], place: usize) -> Fate
    requires { place < length recording.now }
    ensures { known_fate result ≡ fate_on 0 (scan (decide rtcm) recording.now) place }
{
    let mut from: usize = 0;
    loop {
        match scan::next_frame(recording, from) {
            Next::Held(start) => {
                if place < start {
                    return skipped(recording, place);
                }
                return Fate::Held {
                    place: start,
                    length: recording.len() - start,
                };
            }
            Next::Frame {
                place: start,
                length,
            } => {
                if place < start {
                    return skipped(recording, place);
                }
                if place < start + length {
                    return Fate::InFrame {
                        place: start,
                        length,
                    };
                }
                from = start + length;
            }
        }
    }
}

// Why the scan skips the byte at a place, where it does.
fn skipped(recording: &[u8], place: usize) -> Fate
    requires { place < length recording.now }
    ensures { (w : Why) → decide rtcm (drop place recording.now) ≡ Skip w → known_fate result ≡ skipped_fate place w }
{
    if recording[place] != 0xD3 {
        return Fate::NotD3(place);
    }
    let Err(refusal) = frame::check(&recording[place..recording.len()]) else {
        return Fate::NotD3(place);
    };
    let Refusal::BadCheck { sent, computed } = refusal else {
        return Fate::NotD3(place);
    };
    Fate::BadCheck {
        place,
        sent,
        computed,
    }
}
