// Reading and writing one field of 1 to 64 bits, unsigned, in two's complement or as sign and magnitude.
ghost use Rattle.std.specs.Prelude.{◌≡◌, ◌+◌, ◌*◌, ◌≤◌, ◌<◌, length};
ghost use Rattle.bits.specs.Outcome.{outcome};
ghost use Rattle.bits.specs.Field.{missing, read_unsigned, read_twos, read_signmag, write_unsigned, write_twos, write_signmag};
ghost use Rattle.bits.specs.Answers.{told_unsigned, told_signed, told_written};
ghost use Rattle.bits.specs.Steps.{limits_of, put_where_room};
ghost use Rattle.bits.specs.declared.refusal.Refusal.TheVariants.{Short};

use crate::refusal::Refusal;
use crate::{raw, signed};

// Reads the field of `width` bits from bit `start` on as an unsigned number: the number, and the bit behind the field.
pub fn read_unsigned(bytes: &[u8], start: usize, width: usize) -> Result<(u64, usize), Refusal>
    ensures { told_unsigned result ≡ read_unsigned bytes.now start width }
{
    within_limits(bytes.len(), width)?;
    let all = bytes.len() * 8;
    if all < width {
        return Err(cut(all, start, width));
    }
    if all - width < start {
        return Err(cut(all, start, width));
    }
    Ok((raw::field_at(bytes, start, width), start + width))
}

// Reads a field in two's complement.
pub fn read_twos(bytes: &[u8], start: usize, width: usize) -> Result<(i64, usize), Refusal>
    ensures { told_signed result ≡ read_twos bytes.now start width }
{
    let (number, next) = read_unsigned(bytes, start, width)?;
    Ok((signed::twos(number, width), next))
}

// Reads a field as sign and magnitude: minus zero reads as 0.
pub fn read_signmag(bytes: &[u8], start: usize, width: usize) -> Result<(i64, usize), Refusal>
    ensures { told_signed result ≡ read_signmag bytes.now start width }
{
    let (number, next) = read_unsigned(bytes, start, width)?;
    Ok((signed::signmag(number, width), next))
}

// Writes an unsigned number into the `width` bits from bit `start` on, and answers the bit behind them.
pub fn write_unsigned(
    bytes: &mut [u8],
    start: usize,
    width: usize,
    value: u64,
) -> Result<usize, Refusal>
    ensures { outcome (told_written result) bytes.new ≡ write_unsigned bytes.old start width value }
{
    within_limits(bytes.len(), width)?;
    if !signed::fits_unsigned(value, width) {
        return Err(Refusal::Range(0));
    }
    place(bytes, start, width, value)
}

// Writes a number in two's complement.
pub fn write_twos(
    bytes: &mut [u8],
    start: usize,
    width: usize,
    value: i64,
) -> Result<usize, Refusal>
    ensures { outcome (told_written result) bytes.new ≡ write_twos bytes.old start width value }
{
    within_limits(bytes.len(), width)?;
    if !signed::fits_twos(value, width) {
        return Err(Refusal::Range(0));
    }
    place(bytes, start, width, signed::twos_bits(value, width))
}

// Writes a number as sign and magnitude.
pub fn write_signmag(
    bytes: &mut [u8],
    start: usize,
    width: usize,
    value: i64,
) -> Result<usize, Refusal>
    ensures { outcome (told_written result) bytes.new ≡ write_signmag bytes.old start width value }
{
    within_limits(bytes.len(), width)?;
    if !signed::fits_signmag(value, width) {
        return Err(Refusal::Range(0));
    }
    place(bytes, start, width, signed::signmag_bits(value, width))
}

// What is decided before the number and the place are looked at: Size for more than 1,023 bytes of data, Width for a width
// of 0 or above 64.
fn within_limits(n: usize, width: usize) -> Result<(), Refusal>
    ensures { result ≡ limits_of n width }
{
    if 1023 < n {
        return Err(Refusal::Size);
    }
    if width == 0 {
        return Err(Refusal::Width);
    }
    if width < 65 {
        return Ok(());
    }
    Err(Refusal::Width)
}

// The refusal of a field that ends behind the `all` bits of the data: it lacks what lies behind them, which is all of it
// where it starts there.
fn cut(all: usize, start: usize, width: usize) -> Refusal
    requires { all < start + width }
    ensures { result ≡ Short start (missing all start width) }
{
    if all <= start {
        return Refusal::Short {
            place: start,
            missing: width,
        };
    }
    Refusal::Short {
        place: start,
        missing: width - (all - start),
    }
}

// Writes a number that fits its width, where the data reaches so far.
#[inline(always)]
fn place(bytes: &mut [u8], start: usize, width: usize, number: u64) -> Result<usize, Refusal>
    requires { (1 ≤ width) × (width ≤ 64) × (length bytes.old ≤ 1023) }
    ensures { outcome (told_written result) bytes.new ≡ put_where_room bytes.old start width number }
{
    let all = bytes.len() * 8;
    if all < width {
        return Err(Refusal::Room(width));
    }
    if all - width < start {
        return Err(Refusal::Room(width));
    }
    raw::put_field(bytes, start, width, number);
    Ok(start + width)
}
