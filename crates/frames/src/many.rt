// The search for a frame where many candidates fail. The checksums of the bytes from each place of a window up to its end
// are taken in one pass; a candidate is then decided by two of them, which are equal exactly if the checksum of all its
// bytes is 0. So no stream asks for a sum of up to 1,029 bytes at each of its bytes.
ghost use Rattle.std.specs.Prelude.{◌≡◌, true, ◌++◌, ◌+◌, ◌-◌, ◌^◌, ◌≤◌, ◌<◌, min, length, get_or, drop, IfSome};
ghost use Rattle.frames.specs.Framing.{decide};
ghost use Rattle.frames.specs.Feed.{feed};
ghost use Rattle.frames.specs.Rtcm.{rtcm};
ghost use Rattle.frames.specs.Frame.{data_length};
ghost use Rattle.frames.specs.Ubx.{ubx};
ghost use Rattle.frames.specs.Modes.{both, framing_of};
ghost use Rattle.frames.specs.Steps.{starts_either, candidate, searched, number_of, Reached, Tails, Runs, Whole, Ready, Passes};
ghost use Rattle.frames.specs.declared.scan.Candidate.TheVariants.{NotValid};

use crate::mode::Mode;
use crate::scan::{Candidate, Searched};
use crate::{scan, scanner, ubx};

// A window: its first place, and the place behind its last byte.
#[derive(Clone, Copy)]
pub(crate) struct Window {
    pub base: usize,
    pub stop: usize,
}

// The search goes on from place `from`, with the bytes up to place `first` taken. Only a search for both kinds has room for
// the sums of UBX.
pub(crate) fn find_on(held: &[u8], piece: &[u8], mode: Mode, from: usize, first: usize) -> Searched
    requires { (Reached (framing_of (number_of mode)) held.now piece.now from (first - length held.now)) × (length held.now ≤ first) × (length held.now + length piece.now < 2 ^ 64) }
    ensures { result ≡ searched (feed (decide (framing_of (number_of mode))) held.now piece.now) }
{
    // With a `match` the loops put into this function took up to one instruction a byte more.
    if mode == Mode::Rtcm {
        return find_rtcm(held, piece, from, first);
    }
    let mut runs = [0u32; 4097];
    find_by(held, piece, from, first, &mut runs)
}

// The same for RTCM only. The first window is a small one, since a frame may stand near.
fn find_rtcm(held: &[u8], piece: &[u8], from: usize, first: usize) -> Searched
    requires { (Reached (framing_of 0) held.now piece.now from (first - length held.now)) × (length held.now ≤ first) × (length held.now + length piece.now < 2 ^ 64) }
    ensures { result ≡ searched (feed (decide (framing_of 0)) held.now piece.now) }
{
    let h = held.len();
    let all = h + piece.len();
    let mut sums = [0u32; 4097];
    let near = open(held, piece, from, 1536, &mut sums);
    let mut base = near.base;
    let mut stop = near.stop;
    let mut i = from;
    let mut end = first;
    // From candidate to candidate: no `for` goes that way.
    while i < all {
        let j = scan::next_start(held, piece, i, Mode::Rtcm);
        if all <= j {
            return Searched::More(j);
        }
        let window = cover(held, piece, base, stop, j, &mut sums);
        base = window.base;
        stop = window.stop;
        match rtcm_in(held, piece, base, stop, j, &sums) {
            Candidate::Incomplete => {
                return Searched::More(j);
            }
            Candidate::Good(n) => {
                return Searched::Frame {
                    skipped: j,
                    length: n,
                    taken: end.max(j + n) - h,
                };
            }
            Candidate::NotValid(n) => {
                let taken = end.max(j + n);
                let on = pass(held, piece, base, stop, j + 1, taken, &sums);
                end = on.end;
                i = on.place;
            }
        }
    }
    Searched::More(i)
}

// Where a search has come to, and the place up to which bytes are taken.
#[derive(Clone, Copy)]
pub(crate) struct Passed {
    pub place: usize,
    pub end: usize,
}

// Goes on from place `from`, with the bytes up to place `first` taken, over candidates of RTCM that fail, as far as they
// begin in the piece and the window decides whatever may begin there.
pub(crate) fn pass(
    held: &[u8],
    piece: &[u8],
    base: usize,
    stop: usize,
    from: usize,
    first: usize,
    sums: &[u32],
) -> Passed
    requires { (from ≤ length held.now + length piece.now) × (length held.now ≤ first) × (length held.now + length piece.now < 2 ^ 64) × (base ≤ from) × Tails (held.now ++ piece.now) sums.now base stop }
    ensures { Passes (framing_of 0) held.now piece.now from first result.place result.end }
{
    let h = held.len();
    let last = stop.saturating_sub(1028);
    let mut i = from;
    let mut end = first;
    // From candidate to candidate: no `for` goes that way.
    while i < last {
        if i < h {
            return Passed { place: i, end };
        }
        let d = scan::next_d3(piece, i - h);
        let j = h + d;
        if last <= j {
            return Passed { place: i, end };
        }
        let n = data_length(piece, d);
        let at = j - base;
        if sums[at] == sums[at + n + 6] {
            return Passed { place: i, end };
        }
        end = end.max(j + n + 6);
        i = j + 1;
    }
    Passed { place: i, end }
}

// The length of the data that the candidate at place i of the piece claims.
pub(crate) fn data_length(piece: &[u8], i: usize) -> usize
    requires { i + 3 ≤ length piece.now }
    ensures { (result ≡ data_length (drop i piece.now)) × (result < 1024) }
{
    (piece[i + 1] as usize * 0x100 + piece[i + 2] as usize) % 1024
}

// The same for both kinds. It is not one with the search for RTCM, which would have to clear the sums of UBX too.
fn find_by(held: &[u8], piece: &[u8], from: usize, first: usize, runs: &mut [u32]) -> Searched
    requires { (Reached both held.now piece.now from (first - length held.now)) × (length held.now ≤ first) × (length held.now + length piece.now < 2 ^ 64) × (length runs.old ≡ 4097) × (get_or runs.old 0 0 ≡ 0) }
    ensures { result ≡ searched (feed (decide both) held.now piece.now) }
{
    let h = held.len();
    let all = h + piece.len();
    let mut sums = [0u32; 4097];
    let near = open(held, piece, from, 1536, &mut sums);
    let mut at = begun(near, from);
    let mut i = from;
    let mut end = first;
    // From candidate to candidate: no `for` goes that way.
    while i < all {
        let j = scan::next_start(held, piece, i, Mode::Both);
        if all <= j {
            return Searched::More(j);
        }
        let judged = judge(held, piece, at, j, &mut sums, runs);
        at = judged.windows;
        let found = judged.candidate;
        match found {
            Candidate::Incomplete => {
                return Searched::More(j);
            }
            Candidate::Good(n) => {
                return Searched::Frame {
                    skipped: j,
                    length: n,
                    taken: end.max(j + n) - h,
                };
            }
            Candidate::NotValid(n) => {
                let taken = end.max(j + n);
                let on = pass_both(held, piece, at, j + 1, taken, &sums, runs);
                end = on.end;
                i = on.place;
            }
        }
    }
    Searched::More(i)
}

// The same over candidates of both kinds, with a window for each.
pub(crate) fn pass_both(
    held: &[u8],
    piece: &[u8],
    at: Windows,
    from: usize,
    first: usize,
    sums: &[u32],
    runs: &[u32],
) -> Passed
    requires { (from ≤ length held.now + length piece.now) × (length held.now ≤ first) × (length held.now + length piece.now < 2 ^ 64) × (at.base ≤ from) × (at.ubx_base ≤ from) × Ready (held.now ++ piece.now) sums.now runs.now at.base at.stop at.ubx_base at.ubx_stop }
    ensures { Passes both held.now piece.now from first result.place result.end }
{
    let h = held.len();
    let all = h + piece.len();
    let mut i = from;
    let mut end = first;
    // From candidate to candidate: no `for` goes that way.
    while i < all {
        if i < h {
            return Passed { place: i, end };
        }
        let j = h + scan::next_either(piece, i - h);
        if all <= j {
            return Passed { place: i, end };
        }
        let Some(n) = failing(held, piece, at, j, sums, runs) else {
            return Passed { place: i, end };
        };
        end = end.max(j + n);
        i = j + 1;
    }
    Passed { place: i, end }
}

// By how many bytes the check of the start byte at place i of the piece fails, if a window reaches as far as a candidate
// can.
fn failing(
    held: &[u8],
    piece: &[u8],
    at: Windows,
    i: usize,
    sums: &[u32],
    runs: &[u32],
) -> Option<usize>
    requires { (length held.now ≤ i) × (i < length held.now + length piece.now) × (length held.now + length piece.now < 2 ^ 64) × (starts_either (get_or (held.now ++ piece.now) i 0) ≡ true) × (at.base ≤ i) × (at.ubx_base ≤ i) × Ready (held.now ++ piece.now) sums.now runs.now at.base at.stop at.ubx_base at.ubx_stop }
    ensures { IfSome result (λ n. NotValid n ≡ candidate both (drop i (held.now ++ piece.now))) }
{
    if piece[i - held.len()] == 0xB5 {
        return ubx_failing(held, piece, at.ubx_base, at.ubx_stop, i, runs);
    }
    rtcm_failing(held, piece, at.base, at.stop, i, sums)
}

// The same of a D3.
fn rtcm_failing(
    held: &[u8],
    piece: &[u8],
    base: usize,
    stop: usize,
    i: usize,
    sums: &[u32],
) -> Option<usize>
    requires { (length held.now ≤ i) × (i < length held.now + length piece.now) × (length held.now + length piece.now < 2 ^ 64) × (get_or (held.now ++ piece.now) i 0 ≡ 0xD3) × (base ≤ i) × Tails (held.now ++ piece.now) sums.now base stop }
    ensures { IfSome result (λ n. NotValid n ≡ candidate rtcm (drop i (held.now ++ piece.now))) }
{
    if stop.saturating_sub(1028) <= i {
        return None;
    }
    let n = data_length(piece, i - held.len());
    let place = i - base;
    if sums[place] == sums[place + n + 6] {
        return None;
    }
    Some(n + 6)
}

// The same of a B5.
fn ubx_failing(
    held: &[u8],
    piece: &[u8],
    base: usize,
    stop: usize,
    i: usize,
    runs: &[u32],
) -> Option<usize>
    requires { (length held.now ≤ i) × (i < length held.now + length piece.now) × (length held.now + length piece.now < 2 ^ 64) × (get_or (held.now ++ piece.now) i 0 ≡ 0xB5) × (base ≤ i) × Runs (held.now ++ piece.now) runs.now base stop }
    ensures { IfSome result (λ n. NotValid n ≡ candidate ubx (drop i (held.now ++ piece.now))) }
{
    if stop.saturating_sub(1028) <= i {
        return None;
    }
    let d = i - held.len();
    if piece[d + 1] != 0x62 {
        return Some(2);
    }
    let n = piece[d + 4] as usize + piece[d + 5] as usize * 256;
    if 1021 < n {
        return Some(6);
    }
    failed_by(sums_in(held, piece, base, stop, i, n, runs))
}

// The bytes by which a candidate is not valid, if it is not.
fn failed_by(found: Candidate) -> Option<usize>
    ensures { IfSome result (λ n. found ≡ NotValid n) }
{
    match found {
        Candidate::Incomplete => None,
        Candidate::NotValid(n) => Some(n),
        Candidate::Good(_) => None,
    }
}

// The window that serves a candidate at place i: the one at hand, if it reaches as far as a candidate can; else a new one
// from there on.
pub(crate) fn cover(
    held: &[u8],
    piece: &[u8],
    base: usize,
    stop: usize,
    i: usize,
    sums: &mut [u32],
) -> Window
    requires { (i < length held.now + length piece.now) × (length held.now + length piece.now < 2 ^ 64) × (length sums.old ≡ 4097) × (base ≤ i) × Tails (held.now ++ piece.now) sums.old base stop }
    ensures { (result.base ≤ i) × (i + min (length held.now + length piece.now - i) 1029 ≤ result.stop) × Tails (held.now ++ piece.now) sums.new result.base result.stop × (length sums.new ≡ 4097) }
{
    let need = (held.len() + piece.len() - i).min(1029);
    if i + need <= stop {
        return Window { base, stop };
    }
    open(held, piece, i, 4096, sums)
}

// A new window from place i on, of at most so many bytes. They are copied, so that it sees held bytes and piece as one.
pub(crate) fn open(held: &[u8], piece: &[u8], i: usize, size: usize, sums: &mut [u32]) -> Window
    requires { (i ≤ length held.now + length piece.now) × (length held.now + length piece.now < 2 ^ 64) × (size ≤ 4096) × (length sums.old ≡ 4097) }
    ensures { (result.base ≡ i) × (result.stop ≡ i + min size (length held.now + length piece.now - i)) × Tails (held.now ++ piece.now) sums.new result.base result.stop × (length sums.new ≡ 4097) }
{
    let mut part = [0u8; 4096];
    let n = size.min(held.len() + piece.len() - i);
    scanner::gather(&mut part, held, piece, i, n);
    window::tails(&part[0..n], sums);
    Window {
        base: i,
        stop: i + n,
    }
}

// The windows at hand, of the checksums and of the sums of UBX: of each its first place, and the place behind its last byte.
#[derive(Clone, Copy)]
pub(crate) struct Windows {
    pub base: usize,
    pub stop: usize,
    pub ubx_base: usize,
    pub ubx_stop: usize,
}

// The windows of a search that begins at place i with one of checksums, and with an empty one of the sums of UBX.
pub(crate) fn begun(near: Window, i: usize) -> Windows
    ensures { (result.base ≡ near.base) × (result.stop ≡ near.stop) × (result.ubx_base ≡ i) × (result.ubx_stop ≡ i) }
{
    Windows {
        base: near.base,
        stop: near.stop,
        ubx_base: i,
        ubx_stop: i,
    }
}

// What the check of a start byte says, and the windows that are then at hand.
#[derive(Clone, Copy)]
pub(crate) struct Judged {
    pub candidate: Candidate,
    pub windows: Windows,
}

// The check of the start byte at place i, by the window of its kind. Each way is called in one place, so that the compiler
// puts it into the caller's loop.
pub(crate) fn judge(
    held: &[u8],
    piece: &[u8],
    at: Windows,
    i: usize,
    sums: &mut [u32],
    runs: &mut [u32],
) -> Judged
    requires { (i < length held.now + length piece.now) × (length held.now + length piece.now < 2 ^ 64) × (starts_either (get_or (held.now ++ piece.now) i 0) ≡ true) × (at.base ≤ i) × (at.ubx_base ≤ i) × Ready (held.now ++ piece.now) sums.old runs.old at.base at.stop at.ubx_base at.ubx_stop }
    ensures { (result.candidate ≡ candidate both (drop i (held.now ++ piece.now))) × (result.windows.base ≤ i) × (result.windows.ubx_base ≤ i) × Ready (held.now ++ piece.now) sums.new runs.new result.windows.base result.windows.stop result.windows.ubx_base result.windows.ubx_stop × (length runs.new ≡ length runs.old) }
{
    if scan::byte_at(held, piece, i) == 0xB5 {
        return by_runs(held, piece, at, i, runs);
    }
    by_tails(held, piece, at, i, sums)
}

// The check of the D3 at place i, by the window of the checksums.
fn by_tails(held: &[u8], piece: &[u8], at: Windows, i: usize, sums: &mut [u32]) -> Judged
    requires { (i < length held.now + length piece.now) × (length held.now + length piece.now < 2 ^ 64) × (get_or (held.now ++ piece.now) i 0 ≡ 0xD3) × (at.base ≤ i) × (length sums.old ≡ 4097) × Tails (held.now ++ piece.now) sums.old at.base at.stop }
    ensures { (result.candidate ≡ candidate rtcm (drop i (held.now ++ piece.now))) × (result.windows.base ≤ i) × (result.windows.ubx_base ≡ at.ubx_base) × (result.windows.ubx_stop ≡ at.ubx_stop) × (length sums.new ≡ 4097) × Tails (held.now ++ piece.now) sums.new result.windows.base result.windows.stop }
{
    let window = cover(held, piece, at.base, at.stop, i, sums);
    let found = rtcm_in(held, piece, window.base, window.stop, i, sums);
    Judged {
        candidate: found,
        windows: Windows {
            base: window.base,
            stop: window.stop,
            ubx_base: at.ubx_base,
            ubx_stop: at.ubx_stop,
        },
    }
}

// The check of the B5 at place i, by the window of the sums of UBX.
fn by_runs(held: &[u8], piece: &[u8], at: Windows, i: usize, runs: &mut [u32]) -> Judged
    requires { (i < length held.now + length piece.now) × (length held.now + length piece.now < 2 ^ 64) × (get_or (held.now ++ piece.now) i 0 ≡ 0xB5) × (at.ubx_base ≤ i) × (length runs.old ≡ 4097) × Runs (held.now ++ piece.now) runs.old at.ubx_base at.ubx_stop }
    ensures { (result.candidate ≡ candidate ubx (drop i (held.now ++ piece.now))) × (result.windows.ubx_base ≤ i) × (result.windows.base ≡ at.base) × (result.windows.stop ≡ at.stop) × (length runs.new ≡ 4097) × Runs (held.now ++ piece.now) runs.new result.windows.ubx_base result.windows.ubx_stop }
{
    let window = cover_runs(held, piece, at.ubx_base, at.ubx_stop, i, runs);
    let found = ubx_in(held, piece, window.base, window.stop, i, runs);
    Judged {
        candidate: found,
        windows: Windows {
            base: at.base,
            stop: at.stop,
            ubx_base: window.base,
            ubx_stop: window.stop,
        },
    }
}

// The window of UBX sums that serves a candidate at place i: the one at hand, or a new one from there on.
fn cover_runs(
    held: &[u8],
    piece: &[u8],
    base: usize,
    stop: usize,
    i: usize,
    runs: &mut [u32],
) -> Window
    requires { (i < length held.now + length piece.now) × (length held.now + length piece.now < 2 ^ 64) × (length runs.old ≡ 4097) × (base ≤ i) × Runs (held.now ++ piece.now) runs.old base stop }
    ensures { (result.base ≤ i) × (i + min (length held.now + length piece.now - i) 1029 ≤ result.stop) × Runs (held.now ++ piece.now) runs.new result.base result.stop × (length runs.new ≡ 4097) }
{
    let asked = (held.len() + piece.len() - i).min(1029);
    if i + asked <= stop {
        return Window { base, stop };
    }
    open_runs(held, piece, i, runs)
}

// A new window of UBX sums from place i on.
fn open_runs(held: &[u8], piece: &[u8], i: usize, runs: &mut [u32]) -> Window
    requires { (i ≤ length held.now + length piece.now) × (length held.now + length piece.now < 2 ^ 64) × (length runs.old ≡ 4097) }
    ensures { (result.base ≡ i) × (result.stop ≡ i + min 4096 (length held.now + length piece.now - i)) × Runs (held.now ++ piece.now) runs.new result.base result.stop × (length runs.new ≡ 4097) }
{
    let mut bytes = [0u8; 4096];
    let n = (held.len() + piece.len() - i).min(4096);
    scanner::gather(&mut bytes, held, piece, i, n);
    ubx::runs(&bytes[0..n], runs);
    Window {
        base: i,
        stop: i + n,
    }
}

// The frame check of the B5 at place i, by the window.
fn ubx_in(held: &[u8], piece: &[u8], base: usize, stop: usize, i: usize, runs: &[u32]) -> Candidate
    requires { (i < length held.now + length piece.now) × (length held.now + length piece.now < 2 ^ 64) × (get_or (held.now ++ piece.now) i 0 ≡ 0xB5) × (base ≤ i) × (i + min (length held.now + length piece.now - i) 1029 ≤ stop) × Runs (held.now ++ piece.now) runs.now base stop }
    ensures { result ≡ candidate ubx (drop i (held.now ++ piece.now)) }
{
    let claimed = ubx::claim(held, piece, i);
    let Candidate::Good(n) = claimed else {
        return claimed;
    };
    sums_in(held, piece, base, stop, i, n - 8, runs)
}

// The check of a UBX frame at place i that is whole, with n bytes of payload. Its sums are what takes those up to its class
// to those up to the end of its payload: the second takes each of these bytes' share of the first sum before them too.
fn sums_in(
    held: &[u8],
    piece: &[u8],
    base: usize,
    stop: usize,
    i: usize,
    n: usize,
    runs: &[u32],
) -> Candidate
    requires { (length held.now + length piece.now < 2 ^ 64) × (get_or (held.now ++ piece.now) i 0 ≡ 0xB5) × (base ≤ i) × (i + (n + 8) ≤ stop) × Whole (held.now ++ piece.now) i n × Runs (held.now ++ piece.now) runs.now base stop }
    ensures { result ≡ candidate ubx (drop i (held.now ++ piece.now)) }
{
    let k = i + 2 - base;
    let before = runs[k];
    let after = runs[k + n + 4];
    let first = scan::byte_at(held, piece, i + n + 6);
    if (before % 256 + first) % 256 != after % 256 {
        return Candidate::NotValid(n + 8);
    }
    let second = scan::byte_at(held, piece, i + n + 7);
    if (before / 256 + (n + 4) as u32 * (before % 256) + second) % 256 != after / 256 {
        return Candidate::NotValid(n + 8);
    }
    Candidate::Good(n + 8)
}

// The frame check of the D3 at place i, by the window.
pub(crate) fn rtcm_in(
    held: &[u8],
    piece: &[u8],
    base: usize,
    stop: usize,
    i: usize,
    sums: &[u32],
) -> Candidate
    requires { (i < length held.now + length piece.now) × (length held.now + length piece.now < 2 ^ 64) × (get_or (held.now ++ piece.now) i 0 ≡ 0xD3) × (base ≤ i) × (i + min (length held.now + length piece.now - i) 1029 ≤ stop) × Tails (held.now ++ piece.now) sums.now base stop }
    ensures { result ≡ candidate rtcm (drop i (held.now ++ piece.now)) }
{
    let left = held.len() + piece.len() - i;
    if left < 6 {
        return Candidate::Incomplete;
    }
    let n = (scan::three_at(held, piece, i) % 1024) as usize;
    if left < n + 6 {
        return Candidate::Incomplete;
    }
    let k = i - base;
    if sums[k] == sums[k + n + 6] {
        return Candidate::Good(n + 6);
    }
    Candidate::NotValid(n + 6)
}
