// Closing a recording.
ghost use Rattle.std.specs.Prelude.{◌≡◌};
ghost use Rattle.frames.specs.Modes.{framing_of};
ghost use Rattle.frames.specs.Close.{close_of};
ghost use Rattle.frames.specs.Answers.{known_closed};
ghost use Rattle.peerivolt.specs.Extra.{returned};
ghost use Rattle.peerivolt.specs.Scanner.{scanner_of};
ghost use Rattle.peerivolt.specs.Closing.{closed_values, closes};

use crate::extra::Values;
use crate::{extra, scanner};
use frames::close;
use frames::close::Closed;
use frames::scanner::Scanner;

// Closes the recording of the scanner whose held bytes are the first `count` of the area `held`, which took `taken` bytes
// since it was fresh and was opened for a mode. Extra: 0 for Done or 1 for a frame, 0, the bytes skipped in this call, the
// held count now, the frame's length or 0, its stream place or 0, the bytes taken since fresh, now, and the frame's kind.
#[tactic(auto, using(crate::proofs::ClosingLaws::closing))]
#[unsafe(no_mangle)]
pub extern "C" fn pv_close(
    held: &mut [u8],
    count: usize,
    taken: u64,
    mode: u32,
    out: &mut [u8],
    extra: &mut [u64],
) -> u32
    ensures { returned result extra.new (held.new, out.new) ≡ closes held.old out.old (close_of (framing_of mode) held.old (scanner_of count taken mode) out.old) extra.old }
{
    if extra.len() != 8 {
        return 9;
    }
    if held.len() != 1029 {
        return 9;
    }
    let scanner = Scanner { count, taken, mode };
    extra::tell(close::close(held, scanner, out), extra)
}

// 0 for Done or 1 for a frame, and what else is told of it.
impl Values for Closed {
    ghost listed = { λ c. closed_values (known_closed c) };

    #[inline(always)]
    fn values(self) -> [u64; 8] {
        match self {
            Closed::Done { skipped, scanner } => scanner::no_frame(0, skipped, scanner),
            Closed::Frame {
                length,
                skipped,
                place,
                kind,
                scanner,
            } => scanner::a_frame(length, 0, skipped, place, kind, scanner),
        }
    }
}
