// Reading message 1001.
ghost use Rattle.std.specs.Prelude.{◌≡◌, ◌≤◌, length};
ghost use Rattle.bits.specs.Told.{Accepted};
ghost use Rattle.bits.specs.Outcome.{outcome};
ghost use Rattle.bits.specs.Field.{reading, read_unsigned};
ghost use Rattle.observations.specs.Message1001.{message1001, observation1001};
ghost use Rattle.observations.specs.Lists.{lists, even_counts};
ghost use Rattle.observations.specs.Read1001.{read1001};
ghost use Rattle.observations.specs.Answers.{told_read};
ghost use Rattle.observations.specs.Steps.{told_row, onward, Begun, Whole, Ready, observations_at, stored};

use crate::answer::{Header, Message, Observation};
use bits::field;
use bits::refusal::Refusal;

// Reads the message. The first places of the lists take its observations, once all of it is read and they have room.
pub fn read(
    bytes: &[u8],
    satellites: &mut [u8],
    codes: &mut [u8],
    pseudoranges: &mut [u32],
    phases: &mut [i32],
    locks: &mut [u8],
) -> Result<Message, Refusal>
    ensures { outcome (told_read result) (lists satellites.new codes.new pseudoranges.new phases.new locks.new) ≡ read1001 bytes.now (lists satellites.old codes.old pseudoranges.old phases.old locks.old) }
{
    if 1023 < bytes.len() {
        return Err(Refusal::Size);
    }
    if !even(
        satellites.len(),
        codes.len(),
        pseudoranges.len(),
        phases.len(),
        locks.len(),
    ) {
        return Err(Refusal::Size);
    }
    let (header, count) = extent(bytes)?;
    if satellites.len() < count {
        return Err(Refusal::Room(count));
    }
    store(bytes, count, satellites, codes, pseudoranges, phases, locks);
    Ok(Message {
        header,
        count,
        end: 64 + count * 58,
    })
}

// Whether five lengths are one: of the areas that are read into, and of the lists that are written.
#[tactic(auto, unfolding(crate::specs::Lists::even_counts))]
pub(crate) fn even(a: usize, b: usize, c: usize, d: usize, e: usize) -> bool
    ensures { result ≡ even_counts a b c d e }
{
    a == b && a == c && a == d && a == e
}

// ---- the first pass: the header, and whether all observations are there

// The front of a message that is all there: its header, and how many observations it has. Each observation has 58 bits, so
// none but the first that is cut has to be read.
fn extent(bytes: &[u8]) -> Result<(Header, usize), Refusal>
    requires { length bytes.now ≤ 1023 }
    ensures { (message1001.reads bytes.now 0 ≡ onward bytes.now result) × Whole bytes.now result }
{
    let (header, count) = begin(bytes)?;
    let there = (bytes.len() * 8 - 64) / 58;
    if there < count {
        row_at(bytes, 64 + there * 58)?;
    }
    Ok((header, count))
}

// The front of the message.
fn begin(bytes: &[u8]) -> Result<(Header, usize), Refusal>
    ensures { (message1001.reads bytes.now 0 ≡ onward bytes.now result) × Begun bytes.now result }
{
    let (number, at) = field::read_unsigned(bytes, 0, 12)?; // DF002: the message number.
    if number != 1001 {
        return Err(Refusal::Kind);
    }
    header_at(bytes, at)
}

// What stands behind the message number and before the observations.
fn header_at(bytes: &[u8], start: usize) -> Result<(Header, usize), Refusal>
    requires { Accepted (reading 1001 start) ≡ read_unsigned bytes.now 0 12 }
    ensures { (message1001.reads bytes.now 0 ≡ onward bytes.now result) × Begun bytes.now result }
{
    let (station, at) = field::read_unsigned(bytes, start, 12)?; // DF003: the reference station.
    let (epoch, at) = field::read_unsigned(bytes, at, 30)?; // DF004: the GPS epoch time.
    let (synchronous, at) = field::read_unsigned(bytes, at, 1)?; // DF005: the synchronous GNSS flag.
    let (count, at) = field::read_unsigned(bytes, at, 5)?; // DF006: the number of satellites.
    let (smoothing, at) = field::read_unsigned(bytes, at, 1)?; // DF007: the divergence-free smoothing indicator.
    let (interval, _) = field::read_unsigned(bytes, at, 3)?; // DF008: the smoothing interval.
    let header = Header {
        station: station as u32,
        epoch: epoch as u32,
        synchronous: synchronous as u32,
        smoothing: smoothing as u32,
        interval: interval as u32,
    };
    Ok((header, count as usize))
}

// ---- one observation

// The observation from bit `start` on, and the bit behind it.
fn row_at(bytes: &[u8], start: usize) -> Result<(Observation, usize), Refusal>
    ensures { told_row result ≡ observation1001.reads bytes.now start }
{
    let (satellite, at) = field::read_unsigned(bytes, start, 6)?; // DF009: the satellite.
    let (code, at) = field::read_unsigned(bytes, at, 1)?; // DF010: the L1 code indicator.
    let (pseudorange, at) = field::read_unsigned(bytes, at, 24)?; // DF011: the L1 pseudorange.
    let (phase, at) = field::read_twos(bytes, at, 20)?; // DF012: the L1 phase range less the pseudorange.
    let (lock, at) = field::read_unsigned(bytes, at, 7)?; // DF013: the L1 lock time indicator.
    let seen = Observation {
        satellite: satellite as u8,
        code: code as u8,
        pseudorange: pseudorange as u32,
        phase: phase as i32,
        lock: lock as u8,
    };
    Ok((seen, at))
}

// ---- the second pass: the observations, into lists that have room for them

// The n observations of a message that is all there. The C interface lends five areas, and of the loop nothing is plainer than
// their common place: five iterators side by side would hide it.
fn store(
    bytes: &[u8],
    n: usize,
    satellites: &mut [u8],
    codes: &mut [u8],
    pseudoranges: &mut [u32],
    phases: &mut [i32],
    locks: &mut [u8],
)
    requires { Ready bytes.now n (lists satellites.old codes.old pseudoranges.old phases.old locks.old) }
    ensures { lists satellites.new codes.new pseudoranges.new phases.new locks.new ≡ stored 0 (observations_at bytes.now n 64) (lists satellites.old codes.old pseudoranges.old phases.old locks.old) }
{
    let mut at: usize = 64;
    for k in 0..n {
        let (seen, next) = row_at(bytes, at).unwrap();
        satellites[k] = seen.satellite;
        codes[k] = seen.code;
        pseudoranges[k] = seen.pseudorange;
        phases[k] = seen.phase;
        locks[k] = seen.lock;
        at = next;
    }
}
