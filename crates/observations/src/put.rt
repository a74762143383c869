// Fields of a message that is known to fit: nothing is refused, and the answer is the bit behind the field.
ghost use Rattle.std.specs.Prelude.{◌≡◌, true, [], ◌∷◌, ◌^◌, ◌≤◌, ◌<◌};
ghost use Rattle.bits.specs.Signed.{fits_twos, twos_bits};
ghost use Rattle.bits.specs.Fields.{bits};
ghost use Rattle.formats.specs.Put.{RoomFor, IsPut};

use bits::field;

// Writes an unsigned number. The same stands in whole and messages: a public function may ask nothing of its caller.
pub(crate) fn unsigned(bytes: &mut [u8], at: usize, width: usize, value: u32) -> usize
    requires { RoomFor bytes.old at (bits width value ∷ []) × (1 ≤ width) × (width ≤ 64) × (value < 2 ^ width) }
    ensures { IsPut bytes.old at (bits width value ∷ []) bytes.new result }
{
    field::write_unsigned(bytes, at, width, u64::from(value)).unwrap()
}

// Writes a number in two's complement.
pub(crate) fn twos(bytes: &mut [u8], at: usize, width: usize, value: i32) -> usize
    requires { RoomFor bytes.old at (bits width (twos_bits width value) ∷ []) × (1 ≤ width) × (width ≤ 64) × (fits_twos width value ≡ true) }
    ensures { IsPut bytes.old at (bits width (twos_bits width value) ∷ []) bytes.new result }
{
    field::write_twos(bytes, at, width, i64::from(value)).unwrap()
}
