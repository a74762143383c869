// CRC-24Q: words of eight bytes by folding; fewer bytes, and the first ones behind an earlier sum, one at a time from a
// table of 256 numbers.
ghost use Rattle.std.specs.Prelude.{◌≡◌, ◌%◌, ◌^◌, ◌≤◌, length};
ghost use Rattle.bits.specs.Crc.{crc_byte, crc_from, crc};

use crate::{fold, raw};

// The checksum of the bytes.
pub fn crc24q(bytes: &[u8]) -> u32
    ensures { result ≡ crc bytes.now }
{
    if bytes.len() < 8 {
        return by_table(0, bytes);
    }
    by_words(bytes)
}

// The same of eight bytes and more. The first one to eight of them, as many as leave whole words behind, are one number:
// zeros in front of it change no checksum.
fn by_words(bytes: &[u8]) -> u32
    requires { 8 ≤ length bytes.now }
    ensures { result ≡ crc bytes.now }
{
    let front = bytes.len() - (bytes.len() - 1) / 8 * 8;
    let word = raw::eight_at(bytes, 0) >> (64 - front * 8);
    fold::words(bytes, front, word)
}

// The checksum of earlier bytes, continued over these: from the checksum of A it makes that of A and B joined. Over no
// bytes it is the sum as it came, also where that has more than 24 bits.
pub fn crc24q_from(sum: u32, bytes: &[u8]) -> u32
    ensures { result ≡ crc_from sum bytes.now }
{
    if bytes.is_empty() {
        return sum;
    }
    let front = bytes.len() % 8;
    let c = by_table(sum, &bytes[0..front]);
    if bytes.len() < 8 {
        return c;
    }
    let word = raw::eight_at(bytes, front);
    fold::words(bytes, front + 8, ((c as u64) << 40) ^ word)
}

// The same a byte at a time, of the sum's low 24 bits. What moves up beyond them stays in the register until the end, since
// no later step looks at it.
fn by_table(sum: u32, bytes: &[u8]) -> u32
    ensures { result ≡ crc_from (sum % 2 ^ 24) bytes.now }
{
    let mut c = sum;
    for &byte in bytes {
        c = crc_byte(c, byte);
    }
    c % 0x100_0000
}

// The checksum after one byte more, in the low 24 bits: the table's number for the byte that falls out, and the rest moved
// up.
fn crc_byte(c: u32, b: u8) -> u32
    ensures { result % 2 ^ 24 ≡ crc_byte c b }
{
    crctable::entry(((c >> 16) % 256) ^ (b as u32) ^ 128) ^ (c << 8)
}
