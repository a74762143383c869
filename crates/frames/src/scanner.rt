// The scanner: a stream comes in pieces, and the bytes that wait for more are held in an area that the caller lends.
ghost use Rattle.std.specs.Prelude.{◌≡◌, ◌++◌, ◌+◌, ◌-◌, ◌^◌, ◌≤◌, ◌<◌, length, take, drop};
ghost use Rattle.bits.specs.Onto.{onto};
ghost use Rattle.bits.specs.Outcome.{outcome};
ghost use Rattle.frames.specs.Modes.{framing_of};
ghost use Rattle.bits.specs.Told.{Accepted};
ghost use Rattle.frames.specs.Call.{fresh, afresh, onwards, order_of, feed_of};
ghost use Rattle.frames.specs.Answers.{known, told_kind, known_fed, told_fed, told_order};
ghost use Rattle.frames.specs.Steps.{kind_at, moved, CanHold};

use crate::mode::Mode;
use crate::{frame, scan};
use bits::refusal::Refusal;

// What a scanner knows beside the bytes it holds: how many they are, how many bytes it took since it was fresh, and what
// it was opened for: 0 is RTCM only, 1 is RTCM and UBX.
#[derive(Clone, Copy, Debug, PartialEq, Eq)]
pub struct Scanner {
    pub count: usize,
    pub taken: u64,
    pub mode: u32,
}

// The kinds of frames.
#[derive(Clone, Copy, Debug, PartialEq, Eq)]
pub enum Kind {
    Rtcm,
    Ubx,
}

// What a call answers: More, or a frame at the front of the output with its stream place and its kind; the bytes taken
// of the piece and the bytes skipped in this call, and the scanner from now on.
#[derive(Clone, Copy, Debug, PartialEq, Eq)]
pub enum Fed {
    More {
        taken: usize,
        skipped: usize,
        scanner: Scanner,
    },
    Frame {
        length: usize,
        taken: usize,
        skipped: usize,
        place: u64,
        kind: Kind,
        scanner: Scanner,
    },
}

// A fresh scanner that is opened for a mode.
pub fn fresh(mode: u32) -> Scanner
    ensures { known result ≡ fresh mode }
{
    Scanner {
        count: 0,
        taken: 0,
        mode,
    }
}

// The scanner made fresh again: it holds nothing, its places start at 0, and it is opened for the same.
pub fn reset(scanner: Scanner) -> Scanner
    ensures { known result ≡ afresh (known scanner) }
{
    let start: u64 = 0;
    Scanner {
        count: 0,
        taken: start,
        mode: scanner.mode,
    }
}

// Feeds a piece to a scanner, whose held bytes are the first of the area `held`. What a call does not take of the piece is
// to be offered again, until the answer is More. A refusal is Size, State, or Room with the 1,029 bytes that the output
// needs.
pub fn feed(held: &mut [u8], scanner: Scanner, piece: &[u8], out: &mut [u8]) -> Result<Fed, Refusal>
    ensures { outcome (told_fed result) (held.new, out.new) ≡ feed_of (framing_of scanner.mode) held.old (known scanner) piece.now out.old }
{
    in_order(scanner, held)?;
    if 65536 < piece.len() {
        return Err(Refusal::Size);
    }
    if 0x1_0000_0000_0000 < scanner.taken + piece.len() as u64 {
        return Err(Refusal::Size);
    }
    if out.len() < 1029 {
        return Err(Refusal::Room(1029));
    }
    let count = scanner.count;
    let mode = Mode::of(scanner.mode);
    let searched = scan::find_frame(&held[0..count], piece, mode);
    Ok(carry_out(held, scanner, piece, out, searched))
}

// Whether a call can go on with a scanner and its held area: the area has its size, and the scanner holds at most 1,029
// bytes, no more than it took, took at most 2^48, and has a mode that there is. Else the refusal, Size or State.
pub fn in_order(scanner: Scanner, held: &[u8]) -> Result<(), Refusal>
    ensures { told_order result ≡ order_of held.now (known scanner) }
{
    if held.len() != 1029 {
        return Err(Refusal::Size);
    }
    if 1029 < scanner.count {
        return Err(Refusal::State);
    }
    if scanner.taken < scanner.count as u64 {
        return Err(Refusal::State);
    }
    if 0x1_0000_0000_0000 < scanner.taken {
        return Err(Refusal::State);
    }
    if 1 < scanner.mode {
        return Err(Refusal::State);
    }
    Ok(())
}

// Does what a search found: what stands behind the bytes to skip is held; or the frame there is handed out, and what
// stands behind it is held.
fn carry_out(
    held: &mut [u8],
    scanner: Scanner,
    piece: &[u8],
    out: &mut [u8],
    searched: scan::Searched,
) -> Fed
    requires { (scanner.count ≤ length held.old) × (length held.old ≤ length out.old) × (1 ≤ length out.old) × (scanner.count ≤ scanner.taken) × (scanner.taken + length piece.now < 2 ^ 64) × CanHold (length held.old) scanner.count (length piece.now) searched }
    ensures { outcome (Accepted (known_fed result)) (held.new, out.new) ≡ moved held.old (known scanner) piece.now out.old searched }
{
    let count = scanner.count;
    match searched {
        scan::Searched::More(i) => {
            let n = slide(held, count, piece, i);
            Fed::More {
                taken: piece.len(),
                skipped: i,
                scanner: onwards(scanner, piece.len(), n),
            }
        }
        scan::Searched::Frame {
            skipped,
            length,
            taken,
        } => {
            let front = &piece[0..taken];
            gather(out, &held[0..count], front, skipped, length);
            let n = slide(held, count, front, skipped + length);
            let place = scanner.taken - count as u64 + skipped as u64;
            Fed::Frame {
                length,
                taken,
                skipped,
                place,
                kind: kind_of(out[0]),
                scanner: onwards(scanner, taken, n),
            }
        }
    }
}

// The scanner once so many bytes more were taken and so many are held.
pub(crate) fn onwards(scanner: Scanner, taken: usize, count: usize) -> Scanner
    requires { scanner.taken + taken < 2 ^ 64 }
    ensures { known result ≡ onwards (known scanner) taken count }
{
    Scanner {
        count,
        taken: scanner.taken + taken as u64,
        mode: scanner.mode,
    }
}

// The kind of a frame, by its first byte.
pub(crate) fn kind_of(first: u8) -> Kind
    ensures { told_kind result ≡ kind_at first }
{
    if first == 0xB5 {
        return Kind::Ubx;
    }
    Kind::Rtcm
}

// Writes n bytes from place i on, of the held bytes with the piece behind them, to the front of the output.
pub(crate) fn gather(out: &mut [u8], held: &[u8], piece: &[u8], i: usize, n: usize)
    requires { (n ≤ length out.old) × (i + n ≤ length held.now + length piece.now) × (length held.now + length piece.now < 2 ^ 64) }
    ensures { out.new ≡ onto (take n (drop i (held.now ++ piece.now))) out.old }
{
    let h = held.len();
    if h <= i {
        let j = i - h;
        frame::put_at(&piece[j..j + n], out, 0);
        return;
    }
    let m = (h - i).min(n);
    frame::put_at(&held[i..i + m], out, 0);
    frame::put_at(&piece[0..n - m], out, m);
}

// Holds what stands from place i on, of the held bytes with the piece behind them, and tells how many bytes that are.
fn slide(held: &mut [u8], count: usize, piece: &[u8], i: usize) -> usize
    requires { (count ≤ length held.old) × (i ≤ count + length piece.now) × (count + length piece.now ≤ i + length held.old) × (count + length piece.now < 2 ^ 64) }
    ensures { (result ≡ count + length piece.now - i) × (held.new ≡ onto (drop i (take count held.old ++ piece.now)) held.old) }
{
    let n = count + piece.len() - i;
    if n == 0 {
        return 0;
    }
    if i == 0 {
        frame::put_at(piece, held, count);
        return n;
    }
    if count <= i {
        frame::put_at(&piece[i - count..piece.len()], held, 0);
        return n;
    }
    let m = count - i;
    shift(held, i, m);
    frame::put_at(piece, held, m);
    n
}

// Moves n bytes from place i on to the front. By place: `copy_within`, which was tried, is a call of memmove.
pub(crate) fn shift(held: &mut [u8], i: usize, n: usize)
    requires { i + n ≤ length held.old }
    ensures { held.new ≡ take n (drop i held.old) ++ drop n held.old }
{
    for k in 0..n {
        held[k] = held[i + k];
    }
}
