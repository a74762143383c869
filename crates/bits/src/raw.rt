// The number of a field that lies within the data, read and written by a look at eight bytes.
ghost use Rattle.std.specs.Prelude.{◌≡◌, ◌+◌, ◌*◌, ◌%◌, ◌^◌, ◌≤◌, ◌<◌, length};
ghost use Rattle.bits.specs.Field.{field, put_field};
ghost use Rattle.bits.specs.Fields.{Bytes};
ghost use Rattle.bits.specs.Steps.{splice};

// Reads a field, by one look at eight bytes, or two where one does not show all of it.
pub(crate) fn field_at(bytes: &[u8], start: usize, width: usize) -> u64
    requires { (start + width ≤ length bytes.now * 8) × (1 ≤ width) × (width ≤ 64) × (length bytes.now ≤ 1023) }
    ensures { result ≡ field bytes.now start width }
{
    if bytes.len() < 8 {
        return field_by_bytes(bytes, start, width);
    }
    if width <= 57 {
        return look(bytes, start, width);
    }
    let first = width - 32;
    (look(bytes, start, first) << 32) + look(bytes, start + first, 32)
}

// Reads a field of at most 57 bits out of the eight bytes from its first byte on, or out of the last eight.
fn look(bytes: &[u8], start: usize, width: usize) -> u64
    requires { (start + width ≤ length bytes.now * 8) × (1 ≤ width) × (width ≤ 57) × (8 ≤ length bytes.now) × (length bytes.now ≤ 1023) }
    ensures { result ≡ field bytes.now start width }
{
    let i = (start / 8).min(bytes.len() - 8);
    (eight_at(bytes, i) << (start - i * 8)) >> (64 - width)
}

// Reads a field byte by byte: what its last byte has of it stands behind the rest. As it calls itself, the compiler
// does not copy it into its callers, and a field read stays small enough to be copied into its own.
fn field_by_bytes(bytes: &[u8], start: usize, width: usize) -> u64
    requires { (start + width ≤ length bytes.now * 8) × (width ≤ 64) × (length bytes.now ≤ 1023) }
    ensures { result ≡ field bytes.now start width }
{
    if width == 0 {
        return 0;
    }
    let last = start + width - 1;
    let m = (last % 8 + 1).min(width);
    let at = start + (width - m);
    let b = bytes[at / 8] as u64;
    (field_by_bytes(bytes, start, width - m) << m) + ((b << (at % 8)) % 256 >> (8 - m))
}

// Writes the low `width` bits of a number from bit `start` on, by one look at eight bytes, or two where one does not show
// the whole field.
pub(crate) fn put_field(bytes: &mut [u8], start: usize, width: usize, number: u64)
    requires { (start + width ≤ length bytes.old * 8) × (1 ≤ width) × (width ≤ 64) × (length bytes.old ≤ 1023) }
    ensures { bytes.new ≡ put_field bytes.old start width number }
{
    if bytes.len() < 8 {
        put_by_bytes(bytes, start, width, number);
        return;
    }
    if width <= 57 {
        put_look(bytes, start, width, number);
        return;
    }
    let first = width - 32;
    put_look(bytes, start, first, number >> 32);
    put_look(bytes, start + first, 32, number);
}

// Writes a field of at most 57 bits into the eight bytes from its first byte on, or into the last eight. The bits around
// it are written with the values that they have.
fn put_look(bytes: &mut [u8], start: usize, width: usize, number: u64)
    requires { (start + width ≤ length bytes.old * 8) × (1 ≤ width) × (width ≤ 57) × (8 ≤ length bytes.old) × (length bytes.old ≤ 1023) }
    ensures { bytes.new ≡ put_field bytes.old start width number }
{
    let i = (start / 8).min(bytes.len() - 8);
    let j = 64 - width - (start - i * 8);
    let x = spliced(eight_at(bytes, i), width, j, number);
    put_eight(bytes, i, x);
}

// Writes the eight bytes from byte i on, highest first. In this form it is one store.
fn put_eight(bytes: &mut [u8], i: usize, x: u64)
    requires { (i + 8 ≤ length bytes.old) × (length bytes.old ≤ 1023) × Bytes bytes.old }
    ensures { bytes.new ≡ put_field bytes.old (i * 8) 64 x }
{
    bytes[i] = ((x >> 56) % 256) as u8;
    bytes[i + 1] = ((x >> 48) % 256) as u8;
    bytes[i + 2] = ((x >> 40) % 256) as u8;
    bytes[i + 3] = ((x >> 32) % 256) as u8;
    bytes[i + 4] = ((x >> 24) % 256) as u8;
    bytes[i + 5] = ((x >> 16) % 256) as u8;
    bytes[i + 6] = ((x >> 8) % 256) as u8;
    bytes[i + 7] = (x % 256) as u8;
}

// Writes a field byte by byte.
fn put_by_bytes(bytes: &mut [u8], start: usize, width: usize, number: u64)
    requires { (start + width ≤ length bytes.old * 8) × (width ≤ 64) × (length bytes.old ≤ 1023) }
    ensures { bytes.new ≡ put_field bytes.old start width number }
{
    let mut k: usize = 0;
    // A step writes up to the end of a byte: no `for` goes that way.
    while k < width {
        let at = start + k;
        let i = at / 8;
        let o = at % 8;
        let m = (8 - o).min(width - k);
        let y = spliced(wide(bytes[i]), m, 8 - o - m, number >> (width - k - m));
        bytes[i] = (y % 256) as u8;
        k += m;
    }
}

// The number x with the low m bits of v in the m bits that have j bits below them.
fn spliced(x: u64, m: usize, j: usize, v: u64) -> u64
    requires { (1 ≤ m) × (m + j ≤ 64) }
    ensures { result ≡ splice x m j (v % 2 ^ m) }
{
    let old = ((x >> j) << (64 - m)) >> (64 - m);
    let new = (v << (64 - m)) >> (64 - m);
    x - (old << j) + (new << j)
}

// Eight bytes from byte i on, highest first. It is one load.
pub(crate) fn eight_at(bytes: &[u8], i: usize) -> u64
    requires { i + 8 ≤ length bytes.now }
    ensures { result ≡ field bytes.now (i * 8) 64 }
{
    u64::from_be_bytes([
        bytes[i],
        bytes[i + 1],
        bytes[i + 2],
        bytes[i + 3],
        bytes[i + 4],
        bytes[i + 5],
        bytes[i + 6],
        bytes[i + 7],
    ])
}

// A byte as a number. It is a function, and not `as`, since the loop that writes the bytes knows no bound of them: this
// one's argument has it.
fn wide(byte: u8) -> u64
    ensures { (result ≡ byte) × (result < 256) }
{
    byte as u64
}
