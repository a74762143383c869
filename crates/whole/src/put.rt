// Fields of a header that is known to fit: nothing is refused, and the answer is the bit behind the field.
ghost use Rattle.std.specs.Prelude.{[], ◌∷◌, ◌^◌, ◌≤◌, ◌<◌};
ghost use Rattle.bits.specs.Fields.{bits};
ghost use Rattle.formats.specs.Put.{RoomFor, IsPut};

use bits::field;

// Writes an unsigned number. The same stands in observations and messages: a public function may ask nothing of its caller.
pub(crate) fn unsigned(bytes: &mut [u8], at: usize, width: usize, value: u32) -> usize
    requires { RoomFor bytes.old at (bits width value ∷ []) × (1 ≤ width) × (width ≤ 64) × (value < 2 ^ width) }
    ensures { IsPut bytes.old at (bits width value ∷ []) bytes.new result }
{
    field::write_unsigned(bytes, at, width, u64::from(value)).unwrap()
}
