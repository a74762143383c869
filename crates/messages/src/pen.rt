// A pen writes fields one behind the other. It keeps the bits that do not fill four bytes yet, so a field asks for no look
// at the data, and four bytes are stored at a time.
ghost use Rattle.std.specs.Prelude.{◌≡◌, [], ◌∷◌, ◌+◌, ◌*◌, ◌^◌, ◌≤◌, ◌<◌, length};
ghost use Rattle.bits.specs.Field.{put_field};
ghost use Rattle.bits.specs.Fields.{Bytes, bits};
ghost use Rattle.formats.specs.Put.{RoomFor, IsPut};
ghost use Rattle.messages.specs.StepsPen.{drawn};

use crate::put;
use bits::field;

// The bit where the next field goes, and the bits before it, of which the last `at % 32` are not stored yet. The data stand
// beside the pen: with the data in it (tried), the proof no longer knew what they hold once the pen is gone.
#[derive(Clone, Copy)]
pub(crate) struct Pen {
    pub at: usize,
    pub bits: u64,
}

impl Pen {
    // A pen at bit `start`. Of the data it holds the bits that its first four bytes have before there.
    pub(crate) fn open(bytes: &[u8], start: usize) -> Pen
        requires { (length bytes.now ≤ 1023) × (start ≤ length bytes.now * 8) }
        ensures { (result.at ≡ start) × (drawn bytes.now result.at result.bits ≡ bytes.now) }
    {
        let read = field::read_unsigned(bytes, start / 32 * 32, start % 32);
        let Ok((bits, _)) = read else {
            return Pen { at: start, bits: 0 };
        };
        Pen { at: start, bits }
    }

    // Writes a number of at most 32 bits behind what is written.
    fn draw(self, bytes: &mut [u8], width: usize, number: u64) -> Pen
        requires { RoomFor (drawn bytes.old self.at self.bits) self.at (bits width number ∷ []) × (width ≤ 32) × (number < 2 ^ width) }
        ensures { IsPut (drawn bytes.old self.at self.bits) self.at (bits width number ∷ []) (drawn bytes.new result.at result.bits) result.at }
    {
        let at = self.at + width;
        let bits = (self.bits << width) + number;
        if self.at % 32 + width < 32 {
            return Pen { at, bits };
        }
        put_four(bytes, self.at / 32 * 4, bits >> (at % 32));
        Pen { at, bits }
    }

    // Writes two numbers of at most 32 bits in all, one behind the other.
    pub(crate) fn two(self, bytes: &mut [u8], upper: usize, x: u64, lower: usize, y: u64) -> Pen
        requires { RoomFor (drawn bytes.old self.at self.bits) self.at (bits upper x ∷ bits lower y ∷ []) × (upper + lower ≤ 32) × (x < 2 ^ upper) × (y < 2 ^ lower) }
        ensures { IsPut (drawn bytes.old self.at self.bits) self.at (bits upper x ∷ bits lower y ∷ []) (drawn bytes.new result.at result.bits) result.at }
    {
        self.draw(bytes, upper + lower, (x << lower) + y)
    }

    // Stores what the pen holds. The bits behind it stay.
    pub(crate) fn lift(self, bytes: &mut [u8])
        requires { (length bytes.old ≤ 1023) × (self.at ≤ length bytes.old * 8) }
        ensures { bytes.new ≡ drawn bytes.old self.at self.bits }
    {
        let count = self.at % 32;
        if count == 0 {
            return;
        }
        let _end = put::unsigned(bytes, self.at - count, count, self.bits % (1u64 << count));
    }
}

// Writes the four bytes from byte i on, highest first. In this form it is one store.
fn put_four(bytes: &mut [u8], i: usize, x: u64)
    requires { (i + 4 ≤ length bytes.old) × (length bytes.old ≤ 1023) × Bytes bytes.old }
    ensures { bytes.new ≡ put_field bytes.old (i * 8) 32 x }
{
    bytes[i] = ((x >> 24) % 256) as u8;
    bytes[i + 1] = ((x >> 16) % 256) as u8;
    bytes[i + 2] = ((x >> 8) % 256) as u8;
    bytes[i + 3] = (x % 256) as u8;
}
