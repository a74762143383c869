// Writing message 1001.
ghost use Rattle.std.specs.Prelude.{◌≡◌, true, ◌≤◌, ◌<◌, length};
ghost use Rattle.bits.specs.Outcome.{outcome};
ghost use Rattle.bits.specs.Signed.{fits_twos};
ghost use Rattle.bits.specs.Fields.{put_all};
ghost use Rattle.formats.specs.Put.{RoomFor, IsPut};
ghost use Rattle.formats.specs.Format.{fields_each};
ghost use Rattle.formats.specs.Written.{first_fault};
ghost use Rattle.observations.specs.Message1001.{observation1001, header_fits};
ghost use Rattle.observations.specs.Lists.{lists, rows, row_at};
ghost use Rattle.observations.specs.Write1001.{fault1001, write1001};
ghost use Rattle.observations.specs.Answers.{told_written};
ghost use Rattle.observations.specs.Steps.{Alike, told_fault, front_fields, Sound, AllFit};

use crate::answer::{Header, Observation};
use crate::put;
use crate::read::even;
use bits::refusal::Refusal;

// Writes the message of the header and the observations from bit 0 on. Observation i is number i of five lists of one length.
pub fn write(
    bytes: &mut [u8],
    header: Header,
    satellites: &[u8],
    codes: &[u8],
    pseudoranges: &[u32],
    phases: &[i32],
    locks: &[u8],
) -> Result<usize, Refusal>
    ensures { outcome (told_written result) bytes.new ≡ write1001 bytes.old header (lists satellites.now codes.now pseudoranges.now phases.now locks.now) }
{
    if 1023 < bytes.len() {
        return Err(Refusal::Size);
    }
    if !even(
        satellites.len(),
        codes.len(),
        pseudoranges.len(),
        phases.len(),
        locks.len(),
    ) {
        return Err(Refusal::Size);
    }
    if !header_fits(header) {
        return Err(Refusal::Range(0));
    }
    let columns = Columns {
        satellites,
        codes,
        pseudoranges,
        phases,
        locks,
    };
    columns.first_fault()?;
    columns.write(bytes, header)
}

// Whether the numbers of a header fit their fields.
fn header_fits(header: Header) -> bool
    ensures { result ≡ header_fits header }
{
    header.station < 4096
        && header.epoch < 0x4000_0000
        && header.synchronous < 2
        && header.smoothing < 2
        && header.interval < 8
}

// ---- refusals

// The fault of observation i.
fn fault_of(i: usize, seen: Observation) -> Result<(), Refusal>
    ensures { told_fault result ≡ fault1001 i seen }
{
    if 63 < seen.satellite {
        return Err(Refusal::Satellite(i));
    }
    if 1 < seen.code {
        return Err(Refusal::Range(i));
    }
    if 0xFF_FFFF < seen.pseudorange {
        return Err(Refusal::Range(i));
    }
    if !fits_phase(seen.phase) {
        return Err(Refusal::Range(i));
    }
    if 127 < seen.lock {
        return Err(Refusal::Range(i));
    }
    Ok(())
}

// Whether a phase range fits 20 bits.
fn fits_phase(phase: i32) -> bool
    ensures { result ≡ fits_twos 20 phase }
{
    if phase < 0 {
        return -0x8_0001 < phase;
    }
    phase < 0x8_0000
}

// ---- the lists

// Five lists of one length: observation i is number i of each.
#[derive(Clone, Copy)]
struct Columns<'a> {
    satellites: &'a [u8],
    codes: &'a [u8],
    pseudoranges: &'a [u32],
    phases: &'a [i32],
    locks: &'a [u8],
    ghost alike: { Alike (lists satellites.now codes.now pseudoranges.now phases.now locks.now) (length satellites.now) },
}

impl<'a> Columns<'a> {
    // Observation i.
    fn row(&self, i: usize) -> Observation
        requires { i < length self.now.satellites.now }
        ensures { result ≡ row_at (lists self.now.satellites.now self.now.codes.now self.now.pseudoranges.now self.now.phases.now self.now.locks.now) i }
    {
        Observation {
            satellite: self.satellites[i],
            code: self.codes[i],
            pseudorange: self.pseudoranges[i],
            phase: self.phases[i],
            lock: self.locks[i],
        }
    }

    // The fault of the first faulty observation.
    fn first_fault(&self) -> Result<(), Refusal>
        ensures { told_fault result ≡ first_fault fault1001 0 (rows (lists self.now.satellites.now self.now.codes.now self.now.pseudoranges.now self.now.phases.now self.now.locks.now)) }
    {
        for i in 0..self.satellites.len() {
            fault_of(i, self.row(i))?;
        }
        Ok(())
    }

    // Writes the message of observations that have no fault.
    fn write(&self, bytes: &mut [u8], header: Header) -> Result<usize, Refusal>
        requires { Sound bytes.old header (lists self.now.satellites.now self.now.codes.now self.now.pseudoranges.now self.now.phases.now self.now.locks.now) }
        ensures { outcome (told_written result) bytes.new ≡ write1001 bytes.old header (lists self.now.satellites.now self.now.codes.now self.now.pseudoranges.now self.now.phases.now self.now.locks.now) }
    {
        let n = self.satellites.len();
        if 31 < n {
            return Err(Refusal::TooMany(32));
        }
        let bits = 64 + n * 58;
        if bytes.len() * 8 < bits {
            return Err(Refusal::Room(bits));
        }
        put_front(bytes, header, n as u32);
        self.put(bytes);
        Ok(bits)
    }

    // Puts the observations, from bit 64 on.
    fn put(&self, bytes: &mut [u8])
        requires { RoomFor bytes.old 64 (fields_each observation1001 (rows (lists self.now.satellites.now self.now.codes.now self.now.pseudoranges.now self.now.phases.now self.now.locks.now))) × AllFit (rows (lists self.now.satellites.now self.now.codes.now self.now.pseudoranges.now self.now.phases.now self.now.locks.now)) }
        ensures { bytes.new ≡ put_all bytes.old 64 (fields_each observation1001 (rows (lists self.now.satellites.now self.now.codes.now self.now.pseudoranges.now self.now.phases.now self.now.locks.now))) }
    {
        let mut at: usize = 64;
        for i in 0..self.satellites.len() {
            at = put_row(bytes, at, self.row(i));
        }
    }
}

// ---- fields

// The message number, the header and the count.
fn put_front(bytes: &mut [u8], header: Header, count: u32)
    requires { RoomFor bytes.old 0 (front_fields header count) × (header_fits header ≡ true) × (count ≤ 31) }
    ensures { IsPut bytes.old 0 (front_fields header count) bytes.new 64 }
{
    let at = put::unsigned(bytes, 0, 12, 1001);
    let at = put::unsigned(bytes, at, 12, header.station);
    let at = put::unsigned(bytes, at, 30, header.epoch);
    let at = put::unsigned(bytes, at, 1, header.synchronous);
    let at = put::unsigned(bytes, at, 5, count);
    let at = put::unsigned(bytes, at, 1, header.smoothing);
    let _end = put::unsigned(bytes, at, 3, header.interval);
}

// One observation.
fn put_row(bytes: &mut [u8], start: usize, seen: Observation) -> usize
    requires { RoomFor bytes.old start (observation1001.fields seen) × (observation1001.fits seen ≡ true) }
    ensures { IsPut bytes.old start (observation1001.fields seen) bytes.new result }
{
    let at = put::unsigned(bytes, start, 6, u32::from(seen.satellite));
    let at = put::unsigned(bytes, at, 1, u32::from(seen.code));
    let at = put::unsigned(bytes, at, 24, seen.pseudorange);
    let at = put::twos(bytes, at, 20, seen.phase);
    put::unsigned(bytes, at, 7, u32::from(seen.lock))
}
