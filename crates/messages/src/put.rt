// Room for a block, its fields once it is known to fit, and the bits of a bias. Then nothing is refused, and the answer is
// the bit behind the field.
ghost use Rattle.std.specs.Prelude.{◌≡◌, true, [], ◌∷◌, ◌+◌, ◌*◌, ◌^◌, ◌≤◌, ◌<◌, leb};
ghost use Rattle.bits.specs.Fields.{bits};
ghost use Rattle.bits.specs.Signed.{fits_twos, twos_bits};
ghost use Rattle.formats.specs.Put.{RoomFor, IsPut};

use bits::field;

// Whether data of so many bytes has room for so many bits from bit `start` on.
pub(crate) fn has_room(length: usize, start: usize, bits: usize) -> bool
    requires { length ≤ 1023 }
    ensures { result ≡ leb (start + bits) (length * 8) }
{
    let all = length * 8;
    if all < bits {
        return false;
    }
    start <= all - bits
}

// Writes an unsigned number. The crates above have their own: a public function asks nothing of its caller.
pub(crate) fn unsigned(bytes: &mut [u8], at: usize, width: usize, value: u64) -> usize
    requires { RoomFor bytes.old at (bits width value ∷ []) × (1 ≤ width) × (width ≤ 64) × (value < 2 ^ width) }
    ensures { IsPut bytes.old at (bits width value ∷ []) bytes.new result }
{
    let Ok(next) = field::write_unsigned(bytes, at, width, value) else {
        return at;
    };
    next
}

// The W bits of a bias.
pub(crate) fn bits_of<const W: usize>(bias: i16) -> u64
    requires { (1 ≤ W) × (W ≤ 16) × (fits_twos W bias ≡ true) }
    ensures { (result ≡ twos_bits W bias) × (result < 2 ^ W) }
{
    if bias < 0 {
        return (1u64 << W) - 1 - (-1 - bias) as u64;
    }
    bias as u64
}
