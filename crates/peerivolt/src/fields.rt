// Bit fields and the checksum. C calls each by its own name, so that they are not one function of a type.
ghost use Rattle.std.specs.Prelude.{◌≡◌, [], ◌∷◌};
ghost use Rattle.bits.specs.Crc.{crc};
ghost use Rattle.bits.specs.Signed.{twos_bits};
ghost use Rattle.bits.specs.Field.{read_unsigned, read_twos, read_signmag, write_unsigned, write_twos, write_signmag};
ghost use Rattle.peerivolt.specs.Extra.{returned, answered, reads};
ghost use Rattle.peerivolt.specs.Fields.{reading_values, signed_values, end_values};

use crate::extra;
use crate::extra::Values;
use bits::field;

// The checksum of the bytes.
#[unsafe(no_mangle)]
pub extern "C" fn pv_crc24q(bytes: &[u8]) -> u32
    ensures { result ≡ crc bytes.now }
{
    bits::crc::crc24q(bytes)
}

// Reads the field of `width` bits from bit `start` on as an unsigned number. Extra: the value.
#[unsafe(no_mangle)]
pub extern "C" fn pv_field_read_unsigned(
    bytes: &[u8],
    start: usize,
    width: usize,
    extra: &mut [u64],
) -> u32
    ensures { returned result extra.new tt ≡ reads reading_values (read_unsigned bytes.now start width) extra.old }
{
    if extra.len() != 8 {
        return 9;
    }
    extra::tell(field::read_unsigned(bytes, start, width), extra)
}

// Reads a field in two's complement. Extra: the value.
#[unsafe(no_mangle)]
pub extern "C" fn pv_field_read_twos(
    bytes: &[u8],
    start: usize,
    width: usize,
    extra: &mut [u64],
) -> u32
    ensures { returned result extra.new tt ≡ reads signed_values (read_twos bytes.now start width) extra.old }
{
    if extra.len() != 8 {
        return 9;
    }
    extra::tell(field::read_twos(bytes, start, width), extra)
}

// Reads a field as sign and magnitude. Extra: the value.
#[unsafe(no_mangle)]
pub extern "C" fn pv_field_read_signmag(
    bytes: &[u8],
    start: usize,
    width: usize,
    extra: &mut [u64],
) -> u32
    ensures { returned result extra.new tt ≡ reads signed_values (read_signmag bytes.now start width) extra.old }
{
    if extra.len() != 8 {
        return 9;
    }
    extra::tell(field::read_signmag(bytes, start, width), extra)
}

// Writes the value to the field of `width` bits from bit `start` on. Extra: the end bit.
#[unsafe(no_mangle)]
pub extern "C" fn pv_field_write_unsigned(
    bytes: &mut [u8],
    start: usize,
    width: usize,
    value: u64,
    extra: &mut [u64],
) -> u32
    ensures { returned result extra.new bytes.new ≡ answered end_values extra.old bytes.old (write_unsigned bytes.old start width value) }
{
    if extra.len() != 8 {
        return 9;
    }
    extra::tell(field::write_unsigned(bytes, start, width, value), extra)
}

// Writes a field in two's complement. Extra: the end bit.
#[unsafe(no_mangle)]
pub extern "C" fn pv_field_write_twos(
    bytes: &mut [u8],
    start: usize,
    width: usize,
    value: i64,
    extra: &mut [u64],
) -> u32
    ensures { returned result extra.new bytes.new ≡ answered end_values extra.old bytes.old (write_twos bytes.old start width value) }
{
    if extra.len() != 8 {
        return 9;
    }
    extra::tell(field::write_twos(bytes, start, width, value), extra)
}

// Writes a field as sign and magnitude. Extra: the end bit.
#[unsafe(no_mangle)]
pub extern "C" fn pv_field_write_signmag(
    bytes: &mut [u8],
    start: usize,
    width: usize,
    value: i64,
    extra: &mut [u64],
) -> u32
    ensures { returned result extra.new bytes.new ≡ answered end_values extra.old bytes.old (write_signmag bytes.old start width value) }
{
    if extra.len() != 8 {
        return 9;
    }
    extra::tell(field::write_signmag(bytes, start, width, value), extra)
}

// An unsigned number that was read, and the bit behind it, which is not told.
impl Values for (u64, usize) {
    ghost listed = { λ r. r.0 ∷ [] };

    #[inline(always)]
    fn values(self) -> [u64; 8] {
        [self.0, 0, 0, 0, 0, 0, 0, 0]
    }
}

// The same of a signed one, in 64 bits of two's complement.
impl Values for (i64, usize) {
    ghost listed = { λ r. twos_bits 64 r.0 ∷ [] };

    #[inline(always)]
    fn values(self) -> [u64; 8] {
        [self.0.cast_unsigned(), 0, 0, 0, 0, 0, 0, 0]
    }
}

// The bit behind what was written, or the length of a frame.
impl Values for usize {
    ghost listed = { λ q. q ∷ [] };

    #[inline(always)]
    fn values(self) -> [u64; 8] {
        [self as u64, 0, 0, 0, 0, 0, 0, 0]
    }
}
