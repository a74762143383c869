// All frames of a piece in one call.
ghost use Rattle.std.specs.Prelude.{◌≡◌, cond, [], ◌∷◌};
ghost use Rattle.frames.specs.Modes.{framing_of};
ghost use Rattle.batch.specs.Batch.{areas, feed_all_of};
ghost use Rattle.batch.specs.Answers.{known_listed};
ghost use Rattle.peerivolt.specs.Extra.{returned};
ghost use Rattle.peerivolt.specs.Scanner.{scanner_of};
ghost use Rattle.peerivolt.specs.AllFrames.{all_values, feeds_all};

use crate::extra;
use crate::extra::Values;
use batch::feed;
use batch::feed::Listed;
use frames::scanner::Scanner;

// Feeds a piece to the scanner whose held bytes are the first `count` of the area `held`, which took `taken` bytes since
// it was fresh and was opened for a mode, and lists the frames. Extra: how many frames, the bytes taken and skipped in this
// call, the held count now, 1 if the lists are full or 0, the stream place of the first byte held before the call, and the
// bytes taken since fresh, now.
#[tactic(auto, using(crate::proofs::AllFramesLaws::listing))]
#[unsafe(no_mangle)]
pub extern "C" fn pv_feed_all(
    held: &mut [u8],
    count: usize,
    taken: u64,
    mode: u32,
    piece: &[u8],
    seam: &mut [u8],
    starts: &mut [u32],
    lengths: &mut [u32],
    kinds: &mut [u8],
    extra: &mut [u64],
) -> u32
    ensures { returned result extra.new (areas held.new seam.new starts.new lengths.new kinds.new) ≡ feeds_all (areas held.old seam.old starts.old lengths.old kinds.old) (feed_all_of (framing_of mode) (areas held.old seam.old starts.old lengths.old kinds.old) (scanner_of count taken mode) piece.now) extra.old }
{
    if extra.len() != 8 {
        return 9;
    }
    if held.len() != 1029 {
        return 9;
    }
    if seam.len() != 2058 {
        return 9;
    }
    let scanner = Scanner { count, taken, mode };
    let answer = feed::feed_all(held, scanner, piece, seam, starts, lengths, kinds);
    extra::tell(answer, extra)
}

// How many frames, the bytes taken and skipped, the held count now, whether the lists are full, the stream place of the
// first byte held before the call, and the bytes taken since fresh, now.
impl Values for Listed {
    ghost listed = { λ l. all_values (known_listed l) };

    #[inline(always)]
    fn values(self) -> [u64; 8] {
        [
            self.count as u64,
            self.taken as u64,
            self.skipped as u64,
            self.scanner.count as u64,
            self.full as u64,
            self.place,
            self.scanner.taken,
            0,
        ]
    }
}
