// One frame: D3, six reserved bits, a ten-bit length L, L data bytes, and the checksum of all these in three bytes.
ghost use Rattle.std.specs.Prelude.{◌≡◌, ◌+◌, ◌*◌, ◌^◌, ◌≤◌, ◌<◌, length};
ghost use Rattle.bits.specs.Outcome.{outcome};
ghost use Rattle.bits.specs.Field.{field};
ghost use Rattle.bits.specs.Onto.{over};
ghost use Rattle.bits.specs.Part.{lent, within};
ghost use Rattle.bits.specs.Crc.{three_bytes};
ghost use Rattle.frames.specs.Frame.{number_of, check, frame_part, data_part, inside_part, write_frame};
ghost use Rattle.frames.specs.Answers.{told_number, told_checked, told_framed};

use bits::crc;
use bits::refusal::Refusal;

// A good frame: its length, that of its data, its message number, if its data have one, and its checksum.
#[derive(Clone, Copy, Debug, PartialEq, Eq)]
pub struct Frame {
    pub length: usize,
    pub data: usize,
    pub number: Option<u16>,
    pub sum: u32,
}

// Checks the frame at the start of the bytes. What lies behind it is ignored. A refusal is NoPreamble, BadCheck or
// Incomplete.
pub fn check(bytes: &[u8]) -> Result<Frame, Refusal>
    ensures { told_checked result ≡ check bytes.now }
{
    if bytes.len() < 6 {
        return Err(Refusal::Incomplete);
    }
    if bytes[0] != 0xD3 {
        return Err(Refusal::NoPreamble);
    }
    let n = (three_at(bytes, 0) % 1024) as usize;
    if bytes.len() < n + 6 {
        return Err(Refusal::Incomplete);
    }
    let sent = three_at(bytes, n + 3);
    let computed = crc::crc24q(&bytes[0..n + 3]);
    if computed != sent {
        return Err(Refusal::BadCheck { sent, computed });
    }
    Ok(Frame {
        length: n + 6,
        data: n,
        number: number_of(&bytes[3..n + 3]),
        sum: sent,
    })
}

// The message number of a frame's data: none if they are fewer than two bytes.
pub fn number_of(data: &[u8]) -> Option<u16>
    ensures { told_number result ≡ number_of «data».now }
{
    if data.len() < 2 {
        return None;
    }
    Some((data[0] as u16 * 0x100 + data[1] as u16) / 16)
}

// The whole frame at the start of the bytes, as a part of them: empty if the check refuses.
pub fn frame_part(bytes: &[u8]) -> &[u8]
    ensures { lent result.ref_ptr result.now ≡ within bytes.entry.ref_ptr (frame_part bytes.now) }
{
    let Ok(frame) = check(bytes) else {
        return &bytes[0..0];
    };
    &bytes[0..frame.length]
}

// The data of the frame at the start of the bytes, as a part of them: empty, at their start, if the check refuses.
pub fn data_part(bytes: &[u8]) -> &[u8]
    ensures { lent result.ref_ptr result.now ≡ within bytes.entry.ref_ptr (data_part bytes.now) }
{
    let Ok(frame) = check(bytes) else {
        return &bytes[0..0];
    };
    &bytes[3..frame.data + 3]
}

// The data of bytes that are known to be a frame, as a part of them, with no check: all but the first three bytes and the
// last three. Empty, at their start, for fewer than 6 bytes.
pub fn data_of(frame: &[u8]) -> &[u8]
    ensures { lent result.ref_ptr result.now ≡ within frame.entry.ref_ptr (inside_part frame.now) }
{
    let n = frame.len();
    if n < 6 {
        return &frame[0..0];
    }
    &frame[3..n - 3]
}

// Writes the frame of the data to the front of the output, and tells its length. A refusal is Size, or Room with that
// length.
pub fn write(data: &[u8], out: &mut [u8]) -> Result<usize, Refusal>
    ensures { outcome (told_framed result) out.new ≡ write_frame «data».now out.old }
{
    let n = data.len();
    if 1023 < n {
        return Err(Refusal::Size);
    }
    if out.len() < n + 6 {
        return Err(Refusal::Room(n + 6));
    }
    put_three(out, 0, 0xD3_0000 + n as u32);
    put_at(data, out, 3);
    let sum = crc::crc24q(&out[0..n + 3]);
    put_three(out, n + 3, sum);
    Ok(n + 6)
}

// The three bytes from byte i on, highest first. As `put_three` it stands in settings too: a public function may ask nothing
// of its caller.
fn three_at(bytes: &[u8], i: usize) -> u32
    requires { i + 3 ≤ length bytes.now }
    ensures { (result ≡ field bytes.now (i * 8) 24) × (result < 2 ^ 24) }
{
    bytes[i] as u32 * 0x1_0000 + bytes[i + 1] as u32 * 0x100 + bytes[i + 2] as u32
}

// Writes a number of 24 bits over three bytes from byte i on, highest first.
fn put_three(out: &mut [u8], i: usize, v: u32)
    requires { (i + 3 ≤ length out.old) × (v < 2 ^ 24) }
    ensures { out.new ≡ over i (three_bytes v) out.old }
{
    out[i] = (v / 0x1_0000) as u8;
    out[i + 1] = (v / 0x100 % 0x100) as u8;
    out[i + 2] = (v % 0x100) as u8;
}

// Writes the part over the output from byte i on: 32 bytes at a time, and the last 32 once more, so that no few are left
// over. By place: the library's copy, which was tried, is a call of memcpy, for which the archive would need a C library.
pub(crate) fn put_at(part: &[u8], out: &mut [u8], i: usize)
    requires { i + length part.now ≤ length out.old }
    ensures { out.new ≡ over i part.now out.old }
{
    let n = part.len();
    if n < 32 {
        put_each(part, out, i);
        return;
    }
    let last = n - 32;
    put_each(&part[0..n / 32 * 32], out, i);
    put_each(&part[last..n], out, i + last);
}

// The same byte by byte.
fn put_each(part: &[u8], out: &mut [u8], i: usize)
    requires { i + length part.now ≤ length out.old }
    ensures { out.new ≡ over i part.now out.old }
{
    for k in 0..part.len() {
        out[i + k] = part[k];
    }
}
