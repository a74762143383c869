// What a field's number means, which numbers fit a width, and the bits of one that does.
ghost use Rattle.std.specs.Prelude.{◌≡◌, true, ◌+◌, ◌-◌, ◌*◌, ◌^◌, ◌≤◌, ◌<◌};
ghost use Rattle.std.specs.Int.Signed.{mag};
ghost use Rattle.bits.specs.Signed.{twos_of, signmag_of, fits_unsigned, fits_twos, fits_signmag, twos_bits, signmag_bits};

// A field's number read in two's complement.
pub(crate) fn twos(v: u64, width: usize) -> i64
    requires { (1 ≤ width) × (width ≤ 64) × (v < 2 ^ width) }
    ensures { result ≡ twos_of width v }
{
    let half = half_of(width);
    if v < half {
        return v as i64;
    }
    let n = (half - 1 + half - v) as i64;
    -1 - n
}

// A field's number read as sign and magnitude.
pub(crate) fn signmag(v: u64, width: usize) -> i64
    requires { (1 ≤ width) × (width ≤ 64) × (v < 2 ^ width) }
    ensures { result ≡ signmag_of width v }
{
    let half = half_of(width);
    if v < half {
        return v as i64;
    }
    0 - (v - half) as i64
}

// Whether v has no bit above the low `width`.
pub(crate) fn fits_unsigned(v: u64, width: usize) -> bool
    requires { width ≤ 64 }
    ensures { result ≡ fits_unsigned width v }
{
    if width == 64 {
        return true;
    }
    v >> width == 0
}

// Whether z is within the range of two's complement.
pub(crate) fn fits_twos(z: i64, width: usize) -> bool
    requires { (1 ≤ width) × (width ≤ 64) }
    ensures { result ≡ fits_twos width z }
{
    mag_of(z) < half_of(width)
}

// Whether z is within the range of sign and magnitude, which has one number less below zero.
pub(crate) fn fits_signmag(z: i64, width: usize) -> bool
    requires { (1 ≤ width) × (width ≤ 64) }
    ensures { result ≡ fits_signmag width z }
{
    let m = mag_of(z);
    if z < 0 {
        return m + 1 < half_of(width);
    }
    m < half_of(width)
}

// The bits of z in two's complement.
pub(crate) fn twos_bits(z: i64, width: usize) -> u64
    requires { (1 ≤ width) × (width ≤ 64) × (fits_twos width z ≡ true) }
    ensures { result ≡ twos_bits width z }
{
    let m = mag_of(z);
    if z < 0 {
        let half = half_of(width);
        return half - 1 + half - m;
    }
    m
}

// The bits of z as sign and magnitude.
pub(crate) fn signmag_bits(z: i64, width: usize) -> u64
    requires { (1 ≤ width) × (width ≤ 64) × (fits_signmag width z ≡ true) }
    ensures { result ≡ signmag_bits width z }
{
    let m = mag_of(z);
    if z < 0 {
        let half = half_of(width);
        return half + (m + 1);
    }
    m
}

// The place value of a field's top bit.
fn half_of(width: usize) -> u64
    requires { (1 ≤ width) × (width ≤ 64) }
    ensures { (result ≡ 2 ^ (width - 1)) × (result * 2 ≡ 2 ^ width) × (1 ≤ result) × (result ≤ 2 ^ 63) }
{
    1u64 << (width - 1)
}

// z, or -1 - z of a z below zero.
fn mag_of(z: i64) -> u64
    ensures { result ≡ mag z }
{
    if z < 0 {
        return (-1 - z) as u64;
    }
    z as u64
}
