// The scanner.
ghost use Rattle.std.specs.Prelude.{◌≡◌};
ghost use Rattle.frames.specs.Modes.{framing_of};
ghost use Rattle.frames.specs.Call.{More, Frame, feed_of};
ghost use Rattle.frames.specs.Answers.{known, told_kind, known_fed};
ghost use Rattle.peerivolt.specs.Extra.{returned};
ghost use Rattle.peerivolt.specs.Scanner.{scanner_of, kind_number, fed_values, feeds};

use crate::extra;
use crate::extra::Values;
use frames::scanner;
use frames::scanner::{Fed, Kind, Scanner};

// Feeds a piece to the scanner whose held bytes are the first `count` of the area `held`, which took `taken` bytes since
// it was fresh and was opened for a mode. Extra: 0 for More or 1 for a frame, the bytes taken and skipped in this call, the
// held count now, the frame's length or 0, its stream place or 0, the bytes taken since fresh, now, and the frame's kind.
#[tactic(auto, using(crate::proofs::AnswerLaws::feeding))]
#[unsafe(no_mangle)]
pub extern "C" fn pv_feed(
    held: &mut [u8],
    count: usize,
    taken: u64,
    mode: u32,
    piece: &[u8],
    out: &mut [u8],
    extra: &mut [u64],
) -> u32
    ensures { returned result extra.new (held.new, out.new) ≡ feeds held.old out.old (feed_of (framing_of mode) held.old (scanner_of count taken mode) piece.now out.old) extra.old }
{
    if extra.len() != 8 {
        return 9;
    }
    if held.len() != 1029 {
        return 9;
    }
    let scanner = Scanner { count, taken, mode };
    extra::tell(scanner::feed(held, scanner, piece, out), extra)
}

// 0 for More or 1 for a frame, and what else is told of it.
impl Values for Fed {
    ghost listed = { λ f. fed_values (known_fed f) };

    #[inline(always)]
    fn values(self) -> [u64; 8] {
        match self {
            Fed::More {
                taken,
                skipped,
                scanner,
            } => no_frame(taken, skipped, scanner),
            Fed::Frame {
                length,
                taken,
                skipped,
                place,
                kind,
                scanner,
            } => a_frame(length, taken, skipped, place, kind, scanner),
        }
    }
}

// The numbers of no frame, after so many bytes taken and skipped.
pub(crate) fn no_frame(taken: usize, skipped: usize, scanner: Scanner) -> [u64; 8]
    ensures { result ≡ fed_values (More taken skipped (known scanner)) }
{
    let held = scanner.count as u64;
    [
        0,
        taken as u64,
        skipped as u64,
        held,
        0,
        0,
        scanner.taken,
        0,
    ]
}

// Those of a frame of so many bytes at a place, after so many bytes taken and skipped.
pub(crate) fn a_frame(
    length: usize,
    taken: usize,
    skipped: usize,
    place: u64,
    kind: Kind,
    scanner: Scanner,
) -> [u64; 8]
    ensures { result ≡ fed_values (Frame length taken skipped place (told_kind kind) (known scanner)) }
{
    [
        1,
        taken as u64,
        skipped as u64,
        scanner.count as u64,
        length as u64,
        place,
        scanner.taken,
        kind_number(kind),
    ]
}

fn kind_number(kind: Kind) -> u64
    ensures { result ≡ kind_number (told_kind kind) }
{
    match kind {
        Kind::Rtcm => 0,
        Kind::Ubx => 1,
    }
}
