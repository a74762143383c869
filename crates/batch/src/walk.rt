// The frames of the held bytes and the piece as one stream that is nowhere copied together: listed, those that start in
// the held bytes copied to the seam, and their kinds told.
ghost use Rattle.std.specs.Prelude.{◌≡◌, ◌++◌, cond, ◌+◌, ◌≤◌, ◌<◌, ltb, length, get_or, take, drop};
ghost use Rattle.bits.specs.Onto.{onto, over};
ghost use Rattle.frames.specs.Framing.{decide};
ghost use Rattle.frames.specs.Scan.{scan};
ghost use Rattle.frames.specs.Modes.{framing_of};
ghost use Rattle.frames.specs.Listing.{first_of};
ghost use Rattle.batch.specs.Steps.{kind_number_at, kinds_at, seam_at, lists, Fit, Fill, Walks};

use crate::copy;
use frames::list;
use frames::list::Listing;

// Lists the frames of the held bytes with the piece behind them, until there are no more or the lists are full.
pub(crate) fn walk(
    held: &[u8],
    piece: &[u8],
    mode: u32,
    seam: &mut [u8],
    starts: &mut [u32],
    lengths: &mut [u32],
    kinds: &mut [u8],
) -> Listing
    requires { Fit (length held.now) (length piece.now) (lists seam.old starts.old lengths.old kinds.old) }
    ensures { Walks result (first_of (length starts.old) (scan (decide (framing_of mode)) (held.now ++ piece.now))) (length held.now) (length piece.now) (lists seam.old starts.old lengths.old kinds.old) (lists seam.new starts.new lengths.new kinds.new) }
{
    let found = list::frames_across(held, piece, mode, starts, lengths);
    let n = found.count;
    fill(held, piece, &starts[0..n], &lengths[0..n], seam, kinds);
    found
}

// Of each frame that is listed: copies it to the seam, if it starts in the held bytes, and writes the number of its kind.
fn fill(
    held: &[u8],
    piece: &[u8],
    starts: &[u32],
    lengths: &[u32],
    seam: &mut [u8],
    kinds: &mut [u8],
)
    requires { Fill (length held.now) (length piece.now) starts.now lengths.now seam.old kinds.old }
    ensures { (seam.new ≡ seam_at (length held.now) (held.now ++ piece.now) starts.now lengths.now seam.old) × (kinds.new ≡ onto (kinds_at (held.now ++ piece.now) starts.now) kinds.old) }
{
    for k in 0..starts.len() {
        let place = starts[k] as usize;
        copy_early(seam, held, piece, place, lengths[k] as usize);
        kinds[k] = kind_at(held, piece, place);
    }
}

// Copies n bytes from place i on to the same place of the seam, if they start in the held bytes.
fn copy_early(seam: &mut [u8], held: &[u8], piece: &[u8], i: usize, n: usize)
    requires { (i + n ≤ length held.now + length piece.now) × (length held.now + n ≤ length seam.old + 1) }
    ensures { seam.new ≡ cond (ltb i (length held.now)) (over i (take n (drop i (held.now ++ piece.now))) seam.old) seam.old }
{
    let h = held.len();
    if h <= i {
        return;
    }
    let m = (h - i).min(n);
    copy::put_at(&held[i..i + m], seam, i);
    copy::put_at(&piece[0..n - m], seam, i + m);
}

// The number of the kind of the frame that starts at place i.
fn kind_at(held: &[u8], piece: &[u8], i: usize) -> u8
    requires { i < length held.now + length piece.now }
    ensures { result ≡ kind_number_at (get_or (held.now ++ piece.now) i 0) }
{
    let h = held.len();
    if i < h {
        return kind_number(held[i]);
    }
    kind_number(piece[i - h])
}

fn kind_number(first: u8) -> u8
    ensures { result ≡ kind_number_at first }
{
    if first == 0xB5 {
        return 1;
    }
    0
}
