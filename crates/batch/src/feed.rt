// The call: a piece is fed to a scanner, and all its frames are listed.
ghost use Rattle.std.specs.Prelude.{◌≡◌, ◌+◌, ◌^◌, ◌≤◌, ◌<◌, length, take};
ghost use Rattle.bits.specs.Told.{Accepted};
ghost use Rattle.bits.specs.Outcome.{outcome};
ghost use Rattle.frames.specs.Modes.{framing_of};
ghost use Rattle.frames.specs.Answers.{known};
ghost use Rattle.batch.specs.Batch.{areas, taken_of, feed_all_of};
ghost use Rattle.batch.specs.Answers.{known_listed, told_all};
ghost use Rattle.batch.specs.Steps.{found_by, settled, Within};

use crate::{copy, walk};
use bits::refusal::Refusal;
use frames::list::Listing;
use frames::scanner;
use frames::scanner::Scanner;

// What a call answers: how many frames are listed, the bytes taken of the piece and the bytes skipped in this call,
// whether the lists are full, the stream place of the first byte that was held before the call, and the scanner from now
// on.
#[derive(Clone, Copy, Debug, PartialEq, Eq)]
pub struct Listed {
    pub count: usize,
    pub taken: usize,
    pub skipped: usize,
    pub full: bool,
    pub place: u64,
    pub scanner: Scanner,
}

// Feeds a piece to a scanner, whose held bytes are the first of the area `held`, and lists the frames: where each starts,
// counted from the first byte held before the call, its length and its kind. A frame that starts in the held bytes is
// copied to `seam`, at the same place. Where the lists are full, what the call does not take of the piece is to be offered
// again. A refusal is Size, State, or Room with 1: lists of one place are enough for a call.
pub fn feed_all(
    held: &mut [u8],
    scanner: Scanner,
    piece: &[u8],
    seam: &mut [u8],
    starts: &mut [u32],
    lengths: &mut [u32],
    kinds: &mut [u8],
) -> Result<Listed, Refusal>
    ensures { outcome (told_all result) (areas held.new seam.new starts.new lengths.new kinds.new) ≡ feed_all_of (framing_of scanner.mode) (areas held.old seam.old starts.old lengths.old kinds.old) (known scanner) piece.now }
{
    if seam.len() != 2058 {
        return Err(Refusal::Size);
    }
    scanner::in_order(scanner, held)?;
    list_frames(held, scanner, piece, seam, starts, lengths, kinds)
}

// The same of areas that have their sizes and a scanner that is in order.
fn list_frames(
    held: &mut [u8],
    scanner: Scanner,
    piece: &[u8],
    seam: &mut [u8],
    starts: &mut [u32],
    lengths: &mut [u32],
    kinds: &mut [u8],
) -> Result<Listed, Refusal>
    requires { (length held.old ≡ 1029) × (length seam.old ≡ 2058) × (scanner.count ≤ 1029) × (scanner.count ≤ scanner.taken) × (scanner.taken ≤ 2 ^ 48) × (scanner.mode ≤ 1) }
    ensures { outcome (told_all result) (areas held.new seam.new starts.new lengths.new kinds.new) ≡ feed_all_of (framing_of scanner.mode) (areas held.old seam.old starts.old lengths.old kinds.old) (known scanner) piece.now }
{
    if 65536 < piece.len() {
        return Err(Refusal::Size);
    }
    if 0x1_0000_0000_0000 < scanner.taken + piece.len() as u64 {
        return Err(Refusal::Size);
    }
    if lengths.len() != starts.len() {
        return Err(Refusal::Size);
    }
    if kinds.len() != starts.len() {
        return Err(Refusal::Size);
    }
    if starts.len() == 0 {
        return Err(Refusal::Room(1));
    }
    let count = scanner.count;
    let mode = scanner.mode;
    let found = walk::walk(&held[0..count], piece, mode, seam, starts, lengths, kinds);
    Ok(settle(held, scanner, piece, found))
}

// Takes the piece as far as it was scanned, and holds what stands from where scanning stopped on.
fn settle(held: &mut [u8], scanner: Scanner, piece: &[u8], found: Listing) -> Listed
    requires { (scanner.count ≤ length held.old) × (scanner.count ≤ scanner.taken) × (scanner.taken + length piece.now < 2 ^ 64) × Within (length held.old) scanner.count (length piece.now) found }
    ensures { outcome (Accepted (known_listed result)) held.new ≡ settled found (known scanner) (take scanner.count held.old) piece.now held.old }
{
    let count = scanner.count;
    let taken = taken_of(found, count, piece.len());
    let left = copy::slide(held, count, &piece[0..taken], found.stop);
    Listed {
        count: found.count,
        taken,
        skipped: found.stop - found.framed,
        full: found.full,
        place: scanner.taken - count as u64,
        scanner: Scanner {
            count: left,
            taken: scanner.taken + taken as u64,
            mode: scanner.mode,
        },
    }
}

// The bytes of a piece of so many bytes that are taken behind so many held.
fn taken_of(found: Listing, count: usize, piece: usize) -> usize
    ensures { result ≡ taken_of (found_by found) count piece }
{
    if !found.full {
        return piece;
    }
    if found.stop < count {
        return 0;
    }
    found.stop - count
}
