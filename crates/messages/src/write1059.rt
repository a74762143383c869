// Writing the bias block of message 1059.
ghost use Rattle.std.specs.Prelude.{◌≡◌, [], ℕ, ◌≤◌, ◌<◌, length, get_or};
ghost use Rattle.bits.specs.Signed.{fits_twos};
ghost use Rattle.bits.specs.Outcome.{outcome};
ghost use Rattle.bits.specs.Fields.{put_all};
ghost use Rattle.messages.specs.Answers.{told_block};
ghost use Rattle.formats.specs.Put.{RoomFor, IsPut};
ghost use Rattle.formats.specs.Written.{first_fault};
ghost use Rattle.messages.specs.StepsPen.{drawn};
ghost use Rattle.messages.specs.Records.{rec1059, records1059};
ghost use Rattle.messages.specs.Writer.{first_repeat};
ghost use Rattle.messages.specs.Write1059.{same_pair, write1059};
ghost use Rattle.messages.specs.Layout1059.{of_satellite};
ghost use Rattle.messages.specs.StepsEdition.{edition_of};
ghost use Rattle.messages.specs.StepsFault.{told_fault};
ghost use Rattle.messages.specs.StepsWrite1059.{satellite_fields, satellites_from, fault_by, Faultless, write_faultless, write_known, Linked, crowded_in, present_in};

use crate::pen::Pen;
use crate::put;
use crate::signals1059::{Edition, in_mask, with_number};
use bits::refusal::Refusal;

// Writes the block of the records from bit `start` on, the satellites ascending and the records of each in list order.
// Record i is satellite i, signal i and bias i of three lists of one length. The signals are those of the edition, 1 or 2.
pub fn write(
    edition: u32,
    bytes: &mut [u8],
    start: usize,
    satellites: &[u8],
    signals: &[u8],
    biases: &[i16],
) -> Result<usize, Refusal>
    ensures { outcome (told_block result) bytes.new ≡ write1059 edition bytes.old start satellites.now signals.now biases.now }
{
    let edition = Edition::try_from(edition)?;
    write_known(edition, bytes, start, satellites, signals, biases)
}

// The same of an edition that there is.
fn write_known(
    edition: Edition,
    bytes: &mut [u8],
    start: usize,
    satellites: &[u8],
    signals: &[u8],
    biases: &[i16],
) -> Result<usize, Refusal>
    ensures { outcome (told_block result) bytes.new ≡ write_known (edition_of edition) bytes.old start satellites.now signals.now biases.now }
{
    let n = satellites.len();
    if 1023 < bytes.len() {
        return Err(Refusal::Size);
    }
    if n != signals.len() {
        return Err(Refusal::Size);
    }
    if n != biases.len() {
        return Err(Refusal::Size);
    }
    if 1953 < n {
        return Err(Refusal::Size);
    }
    first_fault(edition.mask(), satellites, signals, biases)?;
    let records = Records1059 {
        satellites,
        signals,
        biases,
    };
    records.write(bytes, start)
}

// The first fault of the records, where the mask has the signals of the edition.
fn first_fault(mask: u32, satellites: &[u8], signals: &[u8], biases: &[i16]) -> Result<(), Refusal>
    requires { (length satellites.now ≡ length signals.now) × (length satellites.now ≡ length biases.now) }
    ensures { told_fault result ≡ first_fault (fault_by mask) 0 (records1059 satellites.now signals.now biases.now) }
{
    for (i, satellite) in satellites.iter().enumerate() {
        fault_of(mask, i, *satellite, signals[i], biases[i])?;
    }
    Ok(())
}

// The first fault of record i.
fn fault_of(mask: u32, i: usize, satellite: u8, signal: u8, bias: i16) -> Result<(), Refusal>
    ensures { told_fault result ≡ fault_by mask i (rec1059 satellite signal bias) }
{
    let known = in_mask(mask, signal);
    let fits = fits_bias(bias);
    if 63 < satellite {
        return Err(Refusal::Satellite(i));
    }
    if !known {
        return Err(Refusal::Signal(i));
    }
    if !fits {
        return Err(Refusal::Range(i));
    }
    Ok(())
}

// Whether a bias fits 14 bits.
fn fits_bias(bias: i16) -> bool
    ensures { result ≡ fits_twos 14 bias }
{
    (-8192..8192).contains(&bias)
}

// Records that have no fault, at most 1,953. Record i is satellite i, signal i and bias i of three lists of one length.
#[derive(Clone, Copy)]
struct Records1059<'a> {
    satellites: &'a [u8],
    signals: &'a [u8],
    biases: &'a [i16],
    ghost faultless: { Faultless satellites.now signals.now biases.now },
}

impl<'a> Records1059<'a> {
    // Writes the block.
    fn write(&self, bytes: &mut [u8], start: usize) -> Result<usize, Refusal>
        requires { length bytes.old ≤ 1023 }
        ensures { outcome (told_block result) bytes.new ≡ write_faultless bytes.old start (records1059 self.now.satellites.now self.now.signals.now self.now.biases.now) }
    {
        let n = self.satellites.len();
        let mut chains = Chains {
            heads: [n as u16; 64],
            links: [0u16; 1953],
            counts: [0u16; 64],
        };
        chains.link(self.satellites);
        chains.first_crowded()?;
        let m = chains.present();
        if m == 64 {
            return Err(Refusal::TooMany(64));
        }
        let repeat = self.first_repeat();
        let bits = 6 + m * 11 + n * 19;
        let has_room = put::has_room(bytes.len(), start, bits);
        repeat?;
        if !has_room {
            return Err(Refusal::Room(bits));
        }
        let at = put::unsigned(bytes, start, 6, m as u64);
        self.put_satellites(bytes, at, &chains);
        Ok(start + bits)
    }

    // Duplicate with the index of the first record with the satellite and the signal of an earlier one. Of each satellite
    // the signals so far are the bits of one word.
    fn first_repeat(&self) -> Result<(), Refusal>
        ensures { told_fault result ≡ first_repeat same_pair 0 [] (records1059 self.now.satellites.now self.now.signals.now self.now.biases.now) }
    {
        let mut seen = [0u32; 64];
        for (i, satellite) in self.satellites.iter().enumerate() {
            let a = usize::from(*satellite);
            if in_mask(seen[a], self.signals[i]) {
                return Err(Refusal::Duplicate(i));
            }
            seen[a] = with_number(seen[a], self.signals[i]);
        }
        Ok(())
    }

    // The satellites that have a bias, ascending, each with its biases.
    fn put_satellites(&self, bytes: &mut [u8], start: usize, chains: &Chains)
        requires { RoomFor bytes.old start (satellites_from 0 64 (records1059 self.now.satellites.now self.now.signals.now self.now.biases.now)) × Linked self.now.satellites.now chains.now.heads chains.now.links chains.now.counts 0 × ((a : ℕ) → a < 64 → get_or chains.now.counts a 0 < 32) }
        ensures { bytes.new ≡ put_all bytes.old start (satellites_from 0 64 (records1059 self.now.satellites.now self.now.signals.now self.now.biases.now)) }
    {
        let mut pen = Pen::open(bytes, start);
        for a in 0..64 {
            pen = self.put_satellite(bytes, pen, a, chains);
        }
        pen.lift(bytes);
    }

    // Satellite a: its number, its bias count, and its biases by the links. Nothing where it has none.
    fn put_satellite(&self, bytes: &mut [u8], first: Pen, a: usize, chains: &Chains) -> Pen
        requires { RoomFor (drawn bytes.old first.at first.bits) first.at (satellite_fields a (of_satellite a (records1059 self.now.satellites.now self.now.signals.now self.now.biases.now))) × Linked self.now.satellites.now chains.now.heads chains.now.links chains.now.counts 0 × (a < 64) × (get_or chains.now.counts a 0 < 32) }
        ensures { IsPut (drawn bytes.old first.at first.bits) first.at (satellite_fields a (of_satellite a (records1059 self.now.satellites.now self.now.signals.now self.now.biases.now))) (drawn bytes.new result.at result.bits) result.at }
    {
        let count = chains.counts[a];
        if count == 0 {
            return first;
        }
        let mut pen = first.two(bytes, 6, a as u64, 5, u64::from(count));
        // Along the links, and not by place: no `for` goes that way.
        let mut i = usize::from(chains.heads[a]);
        while i < self.satellites.len() {
            let bias = put::bits_of::<14>(self.biases[i]);
            pen = pen.two(bytes, 5, u64::from(self.signals[i]), 14, bias);
            i = usize::from(chains.links[i]);
        }
        pen
    }
}

// The records of each satellite, linked: `heads` has the index of its first record, `counts` how many it has, and `links`
// of each record the index of the next one. The number of records stands for none: an Option would have twice the room,
// which every call clears.
// That they are linked is said in the contracts: a struct that says so itself is made whole, and would then be moved, 4 KB.
#[derive(Drop)]
struct Chains {
    heads: [u16; 64],
    links: [u16; 1953],
    counts: [u16; 64],
}

impl Chains {
    // Links the records, from the last one back.
    fn link(&mut self, satellites: &[u8])
        requires { (length satellites.now ≤ 1953) × ((i : ℕ) → i < length satellites.now → get_or satellites.now i 0 < 64) × Linked satellites.now self.old.heads self.old.links self.old.counts (length satellites.now) }
        ensures { Linked satellites.now self.new.heads self.new.links self.new.counts 0 }
    {
        for i in (0..satellites.len()).rev() {
            let a = usize::from(satellites[i]);
            self.links[i] = self.heads[a];
            self.heads[a] = i as u16;
            self.counts[a] += 1;
        }
    }

    // TooMany with the lowest satellite that has over 31 biases.
    fn first_crowded(&self) -> Result<(), Refusal>
        ensures { told_fault result ≡ crowded_in 0 self.now.counts }
    {
        for (a, count) in self.counts.iter().enumerate() {
            if 31 < *count {
                return Err(Refusal::TooMany(a));
            }
        }
        Ok(())
    }

    // How many satellites have a bias.
    fn present(&self) -> usize
        ensures { (result ≡ present_in self.now.counts) × (result ≤ 64) }
    {
        self.counts.iter().filter(|count| **count != 0).count()
    }
}
