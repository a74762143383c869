// The listing of frames where many candidates fail: windows go with the walk, and a good frame does not end them.
ghost use Rattle.std.specs.Prelude.{◌≡◌, ◌++◌, ◌+◌, ◌-◌, ◌<◌, length, get_or, drop};
ghost use Rattle.frames.specs.Scan.{scan};
ghost use Rattle.frames.specs.Framing.{decide};
ghost use Rattle.frames.specs.Modes.{both, framing_of};
ghost use Rattle.frames.specs.Steps.{number_of};
ghost use Rattle.frames.specs.ListSteps.{list_on, Sizes, Within};

use crate::list::Listing;
use crate::mode::Mode;
use crate::scan::Candidate;
use crate::{list, many, scan};

// The listing goes on from what it has come to so far. Only a listing of both kinds has room for the sums of UBX.
pub(crate) fn list_on(
    held: &[u8],
    piece: &[u8],
    mode: Mode,
    room: usize,
    reached: Listing,
    starts: &mut [u32],
    lengths: &mut [u32],
) -> Listing
    requires { Sizes (length held.now) (length piece.now) room starts.old lengths.old × Within (length held.now + length piece.now) room reached }
    ensures { (result, starts.new, lengths.new) ≡ list_on (room - reached.count) reached.count reached.stop reached.framed (scan (decide (framing_of (number_of mode))) (drop reached.stop (held.now ++ piece.now))).items starts.old lengths.old }
{
    match mode {
        Mode::Rtcm => list_rtcm(held, piece, room, reached, starts, lengths),
        Mode::Both => {
            let mut runs = [0u32; 4097];
            list_by(held, piece, room, reached, &mut runs, starts, lengths)
        }
    }
}

// The same of RTCM only. The first window is a small one, since many frames may stand near.
fn list_rtcm(
    held: &[u8],
    piece: &[u8],
    room: usize,
    reached: Listing,
    starts: &mut [u32],
    lengths: &mut [u32],
) -> Listing
    requires { Sizes (length held.now) (length piece.now) room starts.old lengths.old × Within (length held.now + length piece.now) room reached }
    ensures { (result, starts.new, lengths.new) ≡ list_on (room - reached.count) reached.count reached.stop reached.framed (scan (decide (framing_of 0)) (drop reached.stop (held.now ++ piece.now))).items starts.old lengths.old }
{
    let all = held.len() + piece.len();
    let mut i = reached.stop;
    let mut k = reached.count;
    let mut framed = reached.framed;
    let mut sums = [0u32; 4097];
    let near = many::open(held, piece, i, 1536, &mut sums);
    let mut base = near.base;
    let mut stop = near.stop;
    // From candidate to candidate: no `for` goes that way.
    while k < room {
        let at = scan::next_start(held, piece, i, Mode::Rtcm);
        if all <= at {
            return list::ended(k, at, framed, false);
        }
        let window = many::cover(held, piece, base, stop, at, &mut sums);
        base = window.base;
        stop = window.stop;
        match many::rtcm_in(held, piece, base, stop, at, &sums) {
            Candidate::Incomplete => {
                return list::ended(k, at, framed, false);
            }
            Candidate::NotValid(_) => {
                let on = many::pass(held, piece, base, stop, at + 1, all, &sums);
                i = on.place;
            }
            Candidate::Good(n) => {
                starts[k] = at as u32;
                lengths[k] = n as u32;
                framed += n;
                k += 1;
                i = at + n;
            }
        }
    }
    list::ended(k, i, framed, true)
}

// The same of both kinds. It is not one with the listing of RTCM, which would have to clear the sums of UBX too.
fn list_by(
    held: &[u8],
    piece: &[u8],
    room: usize,
    reached: Listing,
    runs: &mut [u32],
    starts: &mut [u32],
    lengths: &mut [u32],
) -> Listing
    requires { Sizes (length held.now) (length piece.now) room starts.old lengths.old × Within (length held.now + length piece.now) room reached × (length runs.old ≡ 4097) × (get_or runs.old 0 0 ≡ 0) }
    ensures { (result, starts.new, lengths.new) ≡ list_on (room - reached.count) reached.count reached.stop reached.framed (scan (decide both) (drop reached.stop (held.now ++ piece.now))).items starts.old lengths.old }
{
    let all = held.len() + piece.len();
    let mut i = reached.stop;
    let mut k = reached.count;
    let mut framed = reached.framed;
    let mut sums = [0u32; 4097];
    let near = many::open(held, piece, i, 1536, &mut sums);
    let mut at = many::begun(near, i);
    // From candidate to candidate: no `for` goes that way.
    while k < room {
        let j = scan::next_start(held, piece, i, Mode::Both);
        if all <= j {
            return list::ended(k, j, framed, false);
        }
        let judged = many::judge(held, piece, at, j, &mut sums, runs);
        at = judged.windows;
        let found = judged.candidate;
        match found {
            Candidate::Incomplete => {
                return list::ended(k, j, framed, false);
            }
            Candidate::NotValid(_) => {
                let on = many::pass_both(held, piece, at, j + 1, all, &sums, runs);
                i = on.place;
            }
            Candidate::Good(n) => {
                starts[k] = j as u32;
                lengths[k] = n as u32;
                framed += n;
                k += 1;
                i = j + n;
            }
        }
    }
    list::ended(k, i, framed, true)
}
