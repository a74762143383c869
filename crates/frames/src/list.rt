// All frames of the held bytes with a piece behind them, listed in one walk: where each starts and how long it is.
ghost use Rattle.std.specs.Prelude.{◌≡◌, ◌++◌, ◌+◌, ◌-◌, ◌^◌, ◌≤◌, ◌<◌, length, drop, IfSome};
ghost use Rattle.frames.specs.Scan.{scan};
ghost use Rattle.frames.specs.Framing.{decide};
ghost use Rattle.frames.specs.Modes.{framing_of};
ghost use Rattle.frames.specs.Steps.{candidate, number_of};
ghost use Rattle.frames.specs.declared.scan.Candidate.TheVariants.{Good};
ghost use Rattle.frames.specs.Listing.{list_of};
ghost use Rattle.frames.specs.ListSteps.{listed, list_on, Sizes, Within};

use crate::mode::Mode;
use crate::scan::Candidate;
use crate::{frame, list_many, scan};

// What a listing comes to: how many frames are listed, the place where scanning stops, the bytes in the frames, and
// whether the lists are full.
#[derive(Clone, Copy)]
pub struct Listing {
    pub count: usize,
    pub stop: usize,
    pub framed: usize,
    pub full: bool,
}

// Lists the frames of the held bytes with the piece behind them, until there are no more or a list is full. Of the held
// bytes it looks at the first 1,029, of the piece at the first 65,536, so that a place fits its list.
pub fn frames_across(
    held: &[u8],
    piece: &[u8],
    mode: u32,
    starts: &mut [u32],
    lengths: &mut [u32],
) -> Listing
    ensures { (result, starts.new, lengths.new) ≡ list_of mode held.now piece.now starts.old lengths.old }
{
    let h = held.len().min(1029);
    let n = piece.len().min(65536);
    let room = starts.len().min(lengths.len());
    let mode = Mode::of(mode);
    list_plain(&held[0..h], &piece[0..n], mode, room, starts, lengths)
}

// The same with lists of so many places. Each candidate's sum is taken by itself, until the bytes of those that failed are
// many for the way that was made; from there on a window decides.
fn list_plain(
    held: &[u8],
    piece: &[u8],
    mode: Mode,
    room: usize,
    starts: &mut [u32],
    lengths: &mut [u32],
) -> Listing
    requires { Sizes (length held.now) (length piece.now) room starts.old lengths.old }
    ensures { (result, starts.new, lengths.new) ≡ list_on room 0 0 0 (scan (decide (framing_of (number_of mode))) (held.now ++ piece.now)).items starts.old lengths.old }
{
    let all = held.len() + piece.len();
    let mut i: usize = 0;
    let mut k: usize = 0;
    let mut framed: usize = 0;
    let mut failed: usize = 0;
    // From candidate to candidate: no `for` goes that way.
    while k < room {
        let j = scan::next_start(held, piece, i, mode);
        if all <= j {
            return ended(k, j, framed, false);
        }
        match scan::candidate_at(held, piece, j, mode) {
            Candidate::Incomplete => {
                return ended(k, j, framed, false);
            }
            Candidate::NotValid(n) => {
                failed += n;
                i = j + 1;
                if 8192 + i * 4 < failed {
                    let at = ended(k, i, framed, false);
                    return list_many::list_on(held, piece, mode, room, at, starts, lengths);
                }
            }
            Candidate::Good(n) => {
                starts[k] = j as u32;
                lengths[k] = n as u32;
                let at = ended(k + 1, j + n, framed + n, false);
                let run = list_run(held, piece, mode, room, at, starts, lengths);
                i = run.stop;
                k = run.count;
                framed = run.framed;
            }
        }
    }
    ended(k, i, framed, true)
}

// Lists the frames of RTCM that follow one right behind the other in the piece, and tells how far the listing has come.
fn list_run(
    held: &[u8],
    piece: &[u8],
    mode: Mode,
    places: usize,
    reached: Listing,
    starts: &mut [u32],
    lengths: &mut [u32],
) -> Listing
    requires { Sizes (length held.now) (length piece.now) places starts.old lengths.old × Within (length held.now + length piece.now) places reached }
    ensures { Within (length held.now + length piece.now) places result × (list_on (places - result.count) result.count result.stop result.framed (scan (decide (framing_of (number_of mode))) (drop result.stop (held.now ++ piece.now))).items starts.new lengths.new ≡ list_on (places - reached.count) reached.count reached.stop reached.framed (scan (decide (framing_of (number_of mode))) (drop reached.stop (held.now ++ piece.now))).items starts.old lengths.old) × (reached.stop ≤ result.stop) }
{
    let mut i = reached.stop;
    let mut framed = reached.framed;
    for k in reached.count..places {
        let Some(n) = frame_here(held, piece, i, mode) else {
            return ended(k, i, framed, false);
        };
        starts[k] = i as u32;
        lengths[k] = n as u32;
        framed += n;
        i += n;
    }
    ended(places, i, framed, false)
}

// The length of the frame of RTCM that stands at place i, wholly in the piece.
fn frame_here(held: &[u8], piece: &[u8], i: usize, mode: Mode) -> Option<usize>
    requires { (i ≤ length held.now + length piece.now) × (length held.now + length piece.now < 2 ^ 64) }
    ensures { IfSome result (λ n. Good n ≡ candidate (framing_of (number_of mode)) (drop i (held.now ++ piece.now))) }
{
    let h = held.len();
    if i < h {
        return None;
    }
    match frame::check(&piece[i - h..piece.len()]) {
        Ok(found) => Some(found.length),
        Err(_) => None,
    }
}

pub(crate) fn ended(count: usize, stop: usize, framed: usize, full: bool) -> Listing
    ensures { result ≡ listed count stop framed full }
{
    Listing {
        count,
        stop,
        framed,
        full,
    }
}
