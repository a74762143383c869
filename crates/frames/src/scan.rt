// The whole-stream scan as a call, and the search for a frame that it shares with the scanner.
//
// The search looks at bytes that are held and a piece behind them as one stream, which is nowhere copied together.
// They go as two slices: a struct of both is handed on by its address, which was tried, where a call is not put into its
// caller.
ghost use Rattle.std.specs.Prelude.{◌≡◌, true, [], ◌++◌, ◌+◌, ◌*◌, ◌^◌, ◌≤◌, ◌<◌, length, get_or, take, drop};
ghost use Rattle.bits.specs.Field.{field};
ghost use Rattle.bits.specs.Crc.{crc};
ghost use Rattle.frames.specs.Framing.{decide};
ghost use Rattle.frames.specs.Feed.{feed};
ghost use Rattle.frames.specs.Rtcm.{rtcm};
ghost use Rattle.frames.specs.Modes.{framing_of};
ghost use Rattle.frames.specs.Close.{ending};
ghost use Rattle.frames.specs.Walk.{next_from};
ghost use Rattle.frames.specs.Answers.{told_next};
ghost use Rattle.frames.specs.declared.scan.Candidate.TheVariants.{Incomplete};
ghost use Rattle.frames.specs.Steps.{starts_rtcm, starts_either, starts_in, Start, candidate, searched, among, number_of};

use crate::mode::Mode;
use crate::{many, ubx};
use bits::crc;

// What the scan comes to next: a frame, with its place and its length; or the place from which on the bytes are held.
#[derive(Clone, Copy)]
pub enum Next {
    Frame { place: usize, length: usize },
    Held(usize),
}

// The next frame from a place on. A scan of all the bytes starts at place 0, and goes on behind each frame.
pub fn next_frame(bytes: &[u8], from: usize) -> Next
    ensures { told_next result ≡ next_from rtcm bytes.now from }
{
    let all = bytes.len();
    if all <= from {
        return Next::Held(all);
    }
    match first_frame(&bytes[0..0], &bytes[from..all], Mode::Rtcm) {
        Searched::More(i) => Next::Held(from + i),
        Searched::Frame {
            skipped: i,
            length,
            ..
        } => Next::Frame {
            place: from + i,
            length,
        },
    }
}

// What a search finds. More: no frame, and so many bytes to skip. Frame: the bytes to skip before it, its length, and the
// bytes of the piece that were needed.
#[derive(Clone, Copy)]
pub(crate) enum Searched {
    More(usize),
    Frame {
        skipped: usize,
        length: usize,
        taken: usize,
    },
}

// The first frame of the held bytes with the piece behind them: of RTCM, or of either kind. Each mode has a copy of
// the search of its own, in which it is known.
pub(crate) fn find_frame(held: &[u8], piece: &[u8], mode: Mode) -> Searched
    requires { length held.now + length piece.now < 2 ^ 64 }
    ensures { result ≡ searched (feed (decide (framing_of (number_of mode))) held.now piece.now) }
{
    match mode {
        Mode::Rtcm => {
            if still_waits(held, piece) {
                return Searched::More(0);
            }
            first_frame(held, piece, Mode::Rtcm)
        }
        Mode::Both => first_frame(held, piece, Mode::Both),
    }
}

// Whether the bytes held start with a candidate of RTCM that the piece does not finish.
fn still_waits(held: &[u8], piece: &[u8]) -> bool
    requires { length held.now + length piece.now < 2 ^ 64 }
    ensures { result ≡ true → Incomplete ≡ candidate rtcm (held.now ++ piece.now) }
{
    if held.len() < 3 {
        return false;
    }
    if held[0] != 0xD3 {
        return false;
    }
    held.len() + piece.len() < many::data_length(held, 0) + 6
}

// The first frame in a mode. Each candidate's sum is taken by itself, until those that failed are many for the way that was
// made; from there on a window decides.
#[inline(always)]
fn first_frame(held: &[u8], piece: &[u8], mode: Mode) -> Searched
    requires { length held.now + length piece.now < 2 ^ 64 }
    ensures { result ≡ searched (feed (decide (framing_of (number_of mode))) held.now piece.now) }
{
    let h = held.len();
    let all = h + piece.len();
    let mut i: usize = 0;
    let mut end = h;
    let mut failed: usize = 0;
    // From candidate to candidate: no `for` goes that way.
    while i < all {
        if 64 + i / 64 < failed {
            return many::find_on(held, piece, mode, i, end);
        }
        let start = next_start(held, piece, i, mode);
        if all <= start {
            return Searched::More(start);
        }
        match candidate_at(held, piece, start, mode) {
            Candidate::Incomplete => {
                return Searched::More(start);
            }
            Candidate::Good(n) => {
                return Searched::Frame {
                    skipped: start,
                    length: n,
                    taken: end.max(start + n) - h,
                };
            }
            Candidate::NotValid(n) => {
                end = end.max(start + n);
                failed += 1;
                i = start + 1;
            }
        }
    }
    Searched::More(i)
}

// The first frame of the bytes held at the end of a recording, where nothing waits: an unfinished candidate is skipped by
// one byte.
pub(crate) fn find_at_end(held: &[u8], mode: Mode) -> Searched
    ensures { result ≡ searched (feed (decide (ending (framing_of (number_of mode)))) held.now []) }
{
    let all = held.len();
    let mut i: usize = 0;
    // From candidate to candidate: no `for` goes that way.
    while i < all {
        let at = next_in(held, i, mode);
        if all <= at {
            return Searched::More(at);
        }
        match candidate_at(held, &held[0..0], at, mode) {
            Candidate::Good(n) => {
                return Searched::Frame {
                    skipped: at,
                    length: n,
                    taken: 0,
                };
            }
            Candidate::NotValid(_) => i = at + 1,
            Candidate::Incomplete => i = at + 1,
        }
    }
    Searched::More(i)
}

// The place of the first byte from place i on that starts a frame in the mode, or the end, where a search that finds none
// stops.
#[inline(always)]
pub(crate) fn next_start(held: &[u8], piece: &[u8], i: usize, mode: Mode) -> usize
    requires { (i ≤ length held.now + length piece.now) × (length held.now + length piece.now < 2 ^ 64) }
    ensures { Start (starts_in (number_of mode)) (held.now ++ piece.now) i result }
{
    let h = held.len();
    if h <= i {
        return h + next_in(piece, i - h, mode);
    }
    let j = next_in(held, i, mode);
    if j < h {
        return j;
    }
    h + next_in(piece, 0, mode)
}

// The place of the first byte of a part from a place on that starts a frame in the mode, or its end.
#[inline(always)]
fn next_in(part: &[u8], from: usize, mode: Mode) -> usize
    requires { from ≤ length part.now }
    ensures { Start (starts_in (number_of mode)) part.now from result }
{
    match mode {
        Mode::Rtcm => next_d3(part, from),
        Mode::Both => next_either(part, from),
    }
}

// The place of the first D3 of a part from a place on, or its end. Past the first byte, which is one where frame follows
// frame, it goes by sixteen bytes at a time.
pub(crate) fn next_d3(part: &[u8], from: usize) -> usize
    requires { from ≤ length part.now }
    ensures { Start starts_rtcm part.now from result }
{
    let mut i = from;
    if i < part.len() {
        if part[i] == 0xD3 {
            return i;
        }
    }
    while 16 <= part.len() - i {
        if has(part, i, 0xD3) {
            return near_d3(part, i);
        }
        i += 16;
    }
    near_d3(part, i)
}

// The same, byte by byte.
fn near_d3(part: &[u8], from: usize) -> usize
    requires { from ≤ length part.now }
    ensures { Start starts_rtcm part.now from result }
{
    for i in from..part.len() {
        if part[i] == 0xD3 {
            return i;
        }
    }
    part.len()
}

// The place of the first D3 or B5 of a part from a place on, or its end.
pub(crate) fn next_either(part: &[u8], from: usize) -> usize
    requires { from ≤ length part.now }
    ensures { Start starts_either part.now from result }
{
    let mut i = from;
    while 16 <= part.len() - i {
        if has(part, i, 0xB5) {
            return near_either(part, i);
        }
        if has(part, i, 0xD3) {
            return near_either(part, i);
        }
        i += 16;
    }
    near_either(part, i)
}

// The same, byte by byte.
fn near_either(part: &[u8], from: usize) -> usize
    requires { from ≤ length part.now }
    ensures { Start starts_either part.now from result }
{
    for i in from..part.len() {
        if part[i] == 0xB5 {
            return i;
        }
        if part[i] == 0xD3 {
            return i;
        }
    }
    part.len()
}

// Whether one of the sixteen bytes from place i on is x. In this form all sixteen are compared at once.
fn has(part: &[u8], i: usize, x: u8) -> bool
    requires { i + 16 ≤ length part.now }
    ensures { result ≡ among x 15 part.now i }
{
    (part[i] == x)
        | (part[i + 1] == x)
        | (part[i + 2] == x)
        | (part[i + 3] == x)
        | (part[i + 4] == x)
        | (part[i + 5] == x)
        | (part[i + 6] == x)
        | (part[i + 7] == x)
        | (part[i + 8] == x)
        | (part[i + 9] == x)
        | (part[i + 10] == x)
        | (part[i + 11] == x)
        | (part[i + 12] == x)
        | (part[i + 13] == x)
        | (part[i + 14] == x)
        | (part[i + 15] == x)
}

// What a check says of the candidate at a start byte: incomplete; or not valid, or good, by so many bytes.
#[derive(Clone, Copy)]
pub(crate) enum Candidate {
    Incomplete,
    NotValid(usize),
    Good(usize),
}

// The check of the start byte at place i: that of RTCM, or for both kinds that of its kind.
#[inline(always)]
pub(crate) fn candidate_at(held: &[u8], piece: &[u8], i: usize, mode: Mode) -> Candidate
    requires { (i < length held.now + length piece.now) × (length held.now + length piece.now < 2 ^ 64) × (starts_in (number_of mode) (get_or (held.now ++ piece.now) i 0) ≡ true) }
    ensures { result ≡ candidate (framing_of (number_of mode)) (drop i (held.now ++ piece.now)) }
{
    match mode {
        Mode::Rtcm => rtcm_at(held, piece, i),
        Mode::Both => {
            if byte_at(held, piece, i) == 0xB5 {
                return ubx::ubx_at(held, piece, i);
            }
            rtcm_at(held, piece, i)
        }
    }
}

// The frame check of the D3 at place i. No sum is taken before all bytes that the length asks for are there.
fn rtcm_at(held: &[u8], piece: &[u8], i: usize) -> Candidate
    requires { (i < length held.now + length piece.now) × (length held.now + length piece.now < 2 ^ 64) × (get_or (held.now ++ piece.now) i 0 ≡ 0xD3) }
    ensures { result ≡ candidate rtcm (drop i (held.now ++ piece.now)) }
{
    let left = held.len() + piece.len() - i;
    if left < 6 {
        return Candidate::Incomplete;
    }
    let n = (three_at(held, piece, i) % 1024) as usize;
    if left < n + 6 {
        return Candidate::Incomplete;
    }
    let e = i + n + 3;
    if sum_of(held, piece, i, n + 3) == three_at(held, piece, e) {
        return Candidate::Good(n + 6);
    }
    Candidate::NotValid(n + 6)
}

// The checksum of n bytes from place i on, taken where they lie.
fn sum_of(held: &[u8], piece: &[u8], i: usize, n: usize) -> u32
    requires { (i + n ≤ length held.now + length piece.now) × (length held.now + length piece.now < 2 ^ 64) }
    ensures { result ≡ crc (take n (drop i (held.now ++ piece.now))) }
{
    let h = held.len();
    if h <= i {
        let j = i - h;
        return crc::crc24q(&piece[j..j + n]);
    }
    let m = (h - i).min(n);
    crc::crc24q_from(crc::crc24q(&held[i..i + m]), &piece[0..n - m])
}

// The three bytes from place i on, highest first.
pub(crate) fn three_at(held: &[u8], piece: &[u8], i: usize) -> u32
    requires { (i + 3 ≤ length held.now + length piece.now) × (length held.now + length piece.now < 2 ^ 64) }
    ensures { (result ≡ field (held.now ++ piece.now) (i * 8) 24) × (result < 2 ^ 24) }
{
    let a = byte_at(held, piece, i);
    let b = byte_at(held, piece, i + 1);
    let c = byte_at(held, piece, i + 2);
    a * 0x1_0000 + b * 0x100 + c
}

// The byte at place i.
pub(crate) fn byte_at(held: &[u8], piece: &[u8], i: usize) -> u32
    requires { i < length held.now + length piece.now }
    ensures { (result ≡ get_or (held.now ++ piece.now) i 0) × (result < 256) }
{
    let h = held.len();
    if i < h {
        return held[i] as u32;
    }
    piece[i - h] as u32
}
