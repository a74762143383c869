// Closing: at the end of a recording the bytes that are held are scanned once more, and nothing waits.
ghost use Rattle.std.specs.Prelude.{◌≡◌, [], ◌^◌, ◌≤◌, ◌<◌, length};
ghost use Rattle.bits.specs.Told.{Accepted};
ghost use Rattle.bits.specs.Outcome.{outcome};
ghost use Rattle.frames.specs.Modes.{framing_of};
ghost use Rattle.frames.specs.Close.{closed_by, close_of};
ghost use Rattle.frames.specs.Answers.{known, known_fed, known_closed, told_closed};
ghost use Rattle.frames.specs.Steps.{moved, CanHold};

use crate::mode::Mode;
use crate::scan::Searched;
use crate::scanner::{Fed, Kind, Scanner};
use crate::{frame, scan, scanner};
use bits::refusal::Refusal;

// What a closing call answers: Done, or a frame at the front of the output with its stream place and its kind; the bytes
// skipped in this call, and the scanner from now on, which after Done is fresh.
#[derive(Clone, Copy, Debug, PartialEq, Eq)]
pub enum Closed {
    Done {
        skipped: usize,
        scanner: Scanner,
    },
    Frame {
        length: usize,
        skipped: usize,
        place: u64,
        kind: Kind,
        scanner: Scanner,
    },
}

// Closes a recording: hands out the next frame among the bytes held, where an unfinished candidate is skipped by one byte.
// It is to be called again until the answer is Done. A refusal is Size, State, or Room with the 1,029 bytes that the output
// needs.
pub fn close(held: &mut [u8], scanner: Scanner, out: &mut [u8]) -> Result<Closed, Refusal>
    ensures { outcome (told_closed result) (held.new, out.new) ≡ close_of (framing_of scanner.mode) held.old (known scanner) out.old }
{
    scanner::in_order(scanner, held)?;
    if out.len() < 1029 {
        return Err(Refusal::Room(1029));
    }
    let count = scanner.count;
    let mode = Mode::of(scanner.mode);
    let searched = scan::find_at_end(&held[0..count], mode);
    Ok(ended(carry_out(held, scanner, out, searched)))
}

// Does what a search of the bytes held alone found: a frame is handed out, and what stands behind it, or behind the bytes
// to skip, is held.
fn carry_out(held: &mut [u8], scanner: Scanner, out: &mut [u8], searched: Searched) -> Fed
    requires { (scanner.count ≤ length held.old) × (length held.old ≤ length out.old) × (1 ≤ length out.old) × (scanner.count ≤ scanner.taken) × (scanner.taken < 2 ^ 63) × CanHold (length held.old) scanner.count 0 searched }
    ensures { outcome (Accepted (known_fed result)) (held.new, out.new) ≡ moved held.old (known scanner) [] out.old searched }
{
    let count = scanner.count;
    match searched {
        Searched::More(i) => {
            scanner::shift(held, i, count - i);
            Fed::More {
                taken: 0,
                skipped: i,
                scanner: scanner::onwards(scanner, 0, count - i),
            }
        }
        Searched::Frame {
            skipped: i,
            length,
            ..
        } => {
            let behind = i + length;
            frame::put_at(&held[i..behind], out, 0);
            scanner::shift(held, behind, count - behind);
            Fed::Frame {
                length,
                taken: 0,
                skipped: i,
                place: scanner.taken - count as u64 + i as u64,
                kind: scanner::kind_of(out[0]),
                scanner: scanner::onwards(scanner, 0, count - behind),
            }
        }
    }
}

// A call that was fed no piece, as a closing call: More is Done, and makes the scanner fresh.
fn ended(answer: Fed) -> Closed
    ensures { Accepted (known_closed result) ≡ closed_by (Accepted (known_fed answer)) }
{
    match answer {
        Fed::More {
            taken: _,
            skipped,
            scanner,
        } => Closed::Done {
            skipped,
            scanner: scanner::reset(scanner),
        },
        Fed::Frame {
            length,
            taken: _,
            skipped,
            place,
            kind,
            scanner,
        } => Closed::Frame {
            length,
            skipped,
            place,
            kind,
            scanner,
        },
    }
}
