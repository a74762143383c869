// The check of a UBX frame: B5 62, class, id, the payload's length in two bytes, low byte first, the payload, and two running
// sums over class to payload.
ghost use Rattle.std.specs.Prelude.{◌≡◌, ◌++◌, ◌+◌, ◌^◌, ◌≤◌, ◌<◌, length, get_or, take, drop};
ghost use Rattle.frames.specs.Ubx.{ubx, sums, sums_from};
ghost use Rattle.frames.specs.Steps.{candidate, Whole, Claim, Summed};

use crate::scan;
use crate::scan::Candidate;

// The two running sums, each modulo 256: of the bytes, and of the first sum after each byte.
#[derive(Clone, Copy)]
pub(crate) struct Sums {
    first: u32,
    second: u32,
}

// The check of the B5 at place i. A candidate is given up by the second byte, by the length or by the sums, as soon as
// these are there.
pub(crate) fn ubx_at(held: &[u8], piece: &[u8], i: usize) -> Candidate
    requires { (i < length held.now + length piece.now) × (length held.now + length piece.now < 2 ^ 64) × (get_or (held.now ++ piece.now) i 0 ≡ 0xB5) }
    ensures { result ≡ candidate ubx (drop i (held.now ++ piece.now)) }
{
    let claimed = claim(held, piece, i);
    let Candidate::Good(n) = claimed else {
        return claimed;
    };
    by_sums(held, piece, i, n - 8)
}

// What the B5 at place i and the five bytes behind it claim: that it starts no frame, or one that is not there yet; or a
// frame of so many bytes, if its sums are right.
pub(crate) fn claim(held: &[u8], piece: &[u8], i: usize) -> Candidate
    requires { (i < length held.now + length piece.now) × (length held.now + length piece.now < 2 ^ 64) × (get_or (held.now ++ piece.now) i 0 ≡ 0xB5) }
    ensures { Claim (held.now ++ piece.now) i result }
{
    let left = held.len() + piece.len() - i;
    if left < 2 {
        return Candidate::Incomplete;
    }
    if scan::byte_at(held, piece, i + 1) != 0x62 {
        return Candidate::NotValid(2);
    }
    if left < 6 {
        return Candidate::Incomplete;
    }
    let low = scan::byte_at(held, piece, i + 4);
    let high = scan::byte_at(held, piece, i + 5);
    let n = (low + high * 256) as usize;
    if 1021 < n {
        return Candidate::NotValid(6);
    }
    if left < n + 8 {
        return Candidate::Incomplete;
    }
    Candidate::Good(n + 8)
}

// The check of a frame at place i that is whole, with n bytes of payload, by its sums.
fn by_sums(held: &[u8], piece: &[u8], i: usize, n: usize) -> Candidate
    requires { (length held.now + length piece.now < 2 ^ 64) × (get_or (held.now ++ piece.now) i 0 ≡ 0xB5) × Whole (held.now ++ piece.now) i n }
    ensures { result ≡ candidate ubx (drop i (held.now ++ piece.now)) }
{
    let sums = sums_of(held, piece, i + 2, n + 4);
    if scan::byte_at(held, piece, i + n + 6) != sums.first {
        return Candidate::NotValid(n + 8);
    }
    if scan::byte_at(held, piece, i + n + 7) != sums.second {
        return Candidate::NotValid(n + 8);
    }
    Candidate::Good(n + 8)
}

// The sums of n bytes from place i on, taken where they lie.
fn sums_of(held: &[u8], piece: &[u8], i: usize, n: usize) -> Sums
    requires { (i + n ≤ length held.now + length piece.now) × (length held.now + length piece.now < 2 ^ 64) }
    ensures { (result.first, result.second) ≡ sums (take n (drop i (held.now ++ piece.now))) }
{
    let none = Sums {
        first: 0,
        second: 0,
    };
    let h = held.len();
    if h <= i {
        let j = i - h;
        return sums_from(none, &piece[j..j + n]);
    }
    let m = (h - i).min(n);
    sums_from(sums_from(none, &held[i..i + m]), &piece[0..n - m])
}

// Sums continued over more bytes.
fn sums_from(start: Sums, bytes: &[u8]) -> Sums
    requires { (start.first < 256) × (start.second < 256) }
    ensures { ((result.first, result.second) ≡ sums_from (start.first, start.second) bytes.now) × (result.first < 256) × (result.second < 256) }
{
    let mut first = start.first;
    let mut second = start.second;
    for &byte in bytes {
        first = (first + byte as u32) % 256;
        second = (second + first) % 256;
    }
    Sums { first, second }
}

// Stores the sums of the first bytes of a part, both in one number: of none, of one, and so on up to all.
pub(crate) fn runs(part: &[u8], out: &mut [u32])
    requires { length part.now < length out.old }
    ensures { (Summed part.now out.new) × (length out.new ≡ length out.old) }
{
    let mut first: u32 = 0;
    let mut second: u32 = 0;
    out[0] = 0;
    for (k, &byte) in part.iter().enumerate() {
        first = (first + byte as u32) % 256;
        second = (second + first) % 256;
        out[k + 1] = second * 256 + first;
    }
}
