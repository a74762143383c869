// What became of a byte of a recording.
ghost use Rattle.std.specs.Prelude.{◌≡◌, [], ◌∷◌};
ghost use Rattle.frames.specs.Fate.{fate_of, known_fate};
ghost use Rattle.peerivolt.specs.Extra.{returned, reads};
ghost use Rattle.peerivolt.specs.Why.{fate_values};

use crate::extra;
use crate::extra::Values;
use frames::fate;
use frames::fate::Fate;

// What the whole-stream scan of a recording makes of the byte at a place. Extra: 0 in a frame, 1 not D3, 2 a bad check, 3
// held; the place of the frame, of the byte itself or of the unfinished candidate; the bytes of the frame, or from the
// candidate to the end; the checksum sent and the one computed.
#[unsafe(no_mangle)]
pub extern "C" fn pv_why(recording: &[u8], place: usize, extra: &mut [u64]) -> u32
    ensures { returned result extra.new tt ≡ reads fate_values (fate_of recording.now place) extra.old }
{
    if extra.len() != 8 {
        return 9;
    }
    extra::tell(fate::of(recording, place), extra)
}

// Which of the four it is, a place, a length, and the two checksums.
impl Values for Fate {
    ghost listed = { λ f. fate_values (known_fate f) };

    #[inline(always)]
    fn values(self) -> [u64; 8] {
        match self {
            Fate::InFrame { place, length } => [0, place as u64, length as u64, 0, 0, 0, 0, 0],
            Fate::NotD3(place) => [1, place as u64, 0, 0, 0, 0, 0, 0],
            Fate::BadCheck {
                place,
                sent,
                computed,
            } => [2, place as u64, 0, sent as u64, computed as u64, 0, 0, 0],
            Fate::Held { place, length } => [3, place as u64, length as u64, 0, 0, 0, 0, 0],
        }
    }
}
