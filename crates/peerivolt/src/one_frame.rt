// One frame.
ghost use Rattle.std.specs.Prelude.{◌≡◌, [], ◌∷◌};
ghost use Rattle.frames.specs.Frame.{check, write_frame};
ghost use Rattle.frames.specs.Answers.{told_number};
ghost use Rattle.peerivolt.specs.Extra.{returned, answered, reads};
ghost use Rattle.peerivolt.specs.Fields.{end_values};
ghost use Rattle.peerivolt.specs.Frames.{message_number, whole_values};

use crate::extra;
use crate::extra::Values;
use frames::frame;
use frames::frame::Frame;

// Checks the frame at the start of the bytes. Extra: its length, that of its data, 1 and the message number or 0 and 0,
// and the checksum; of BadCheck the checksum sent and the one computed.
#[unsafe(no_mangle)]
pub extern "C" fn pv_frame_check(bytes: &[u8], extra: &mut [u64]) -> u32
    ensures { returned result extra.new tt ≡ reads whole_values (check bytes.now) extra.old }
{
    if extra.len() != 8 {
        return 9;
    }
    extra::tell(frame::check(bytes), extra)
}

// Writes the frame of the data to the front of the output. Extra: its length.
#[unsafe(no_mangle)]
pub extern "C" fn pv_frame_write(bytes: &[u8], out: &mut [u8], extra: &mut [u64]) -> u32
    ensures { returned result extra.new out.new ≡ answered end_values extra.old out.old (write_frame bytes.now out.old) }
{
    if extra.len() != 8 {
        return 9;
    }
    extra::tell(frame::write(bytes, out), extra)
}

// The frame's length, that of its data, its message number, and its checksum.
impl Values for Frame {
    ghost listed = { λ f. f.length ∷ f.«data» ∷ message_number (told_number f.number) (f.sum ∷ []) };

    #[inline(always)]
    fn values(self) -> [u64; 8] {
        let size = self.length as u64;
        let carried = self.data as u64;
        let sum = self.sum as u64;
        match self.number {
            Some(number) => [size, carried, 1, number as u64, sum, 0, 0, 0],
            None => [size, carried, 0, 0, sum, 0, 0, 0],
        }
    }
}
