// Message 1001, and what its raw numbers measure.
ghost use Rattle.std.specs.Prelude.{◌≡◌};
ghost use Rattle.bits.specs.Told.{Accepted};
ghost use Rattle.observations.specs.Lists.{lists};
ghost use Rattle.observations.specs.Read1001.{seen, read1001};
ghost use Rattle.observations.specs.Write1001.{write1001};
ghost use Rattle.observations.specs.Measured.{pseudorange_of, phase_of, lock_of, IsNumber};
ghost use Rattle.peerivolt.specs.Extra.{returned, answered, reads, spread};
ghost use Rattle.peerivolt.specs.Fields.{end_values};
ghost use Rattle.peerivolt.specs.Message1001.{seen_values, measured_values, header};

use crate::extra;
use crate::extra::Values;
use observations::answer::{Header, Message};
use observations::measured::Measured;
use observations::{measured, read, write};

// Reads message 1001 into the lists. Extra: how many observations, the end bit, station, epoch, synchronous flag, smoothing
// flag, smoothing interval.
#[unsafe(no_mangle)]
pub extern "C" fn pv_1001_read(
    bytes: &[u8],
    satellites: &mut [u8],
    codes: &mut [u8],
    pseudoranges: &mut [u32],
    phases: &mut [i32],
    locks: &mut [u8],
    extra: &mut [u64],
) -> u32
    ensures { returned result extra.new (lists satellites.new codes.new pseudoranges.new phases.new locks.new) ≡ answered seen_values extra.old (lists satellites.old codes.old pseudoranges.old phases.old locks.old) (read1001 bytes.now (lists satellites.old codes.old pseudoranges.old phases.old locks.old)) }
{
    if extra.len() != 8 {
        return 9;
    }
    extra::tell(
        read::read(bytes, satellites, codes, pseudoranges, phases, locks),
        extra,
    )
}

// Writes message 1001. Extra: the end bit.
#[unsafe(no_mangle)]
pub extern "C" fn pv_1001_write(
    bytes: &mut [u8],
    station: u32,
    epoch: u32,
    synchronous: u32,
    smoothing: u32,
    interval: u32,
    satellites: &[u8],
    codes: &[u8],
    pseudoranges: &[u32],
    phases: &[i32],
    locks: &[u8],
    extra: &mut [u64],
) -> u32
    ensures { returned result extra.new bytes.new ≡ answered end_values extra.old bytes.old (write1001 bytes.old (header station epoch synchronous smoothing interval) (lists satellites.now codes.now pseudoranges.now phases.now locks.now)) }
{
    if extra.len() != 8 {
        return 9;
    }
    let header = Header {
        station,
        epoch,
        synchronous,
        smoothing,
        interval,
    };
    extra::tell(
        write::write(
            bytes,
            header,
            satellites,
            codes,
            pseudoranges,
            phases,
            locks,
        ),
        extra,
    )
}

// What a raw pseudorange measures. Extra: 0 absent or 2 metres, and the 64 bits of the double.
#[unsafe(no_mangle)]
pub extern "C" fn pv_1001_pseudorange(raw: u32, extra: &mut [u64]) -> u32
    ensures { returned result extra.new tt ≡ reads measured_values (Accepted (pseudorange_of raw)) extra.old }
{
    if extra.len() != 8 {
        return 9;
    }
    extra::fill(numbers_of(measured::pseudorange(raw)), extra);
    0
}

// What a raw phase range measures. Extra: 0 absent or 2 metres, and the 64 bits of the double.
#[unsafe(no_mangle)]
pub extern "C" fn pv_1001_phase(raw: i32, extra: &mut [u64]) -> u32
    ensures { returned result extra.new tt ≡ reads measured_values (Accepted (phase_of raw)) extra.old }
{
    if extra.len() != 8 {
        return 9;
    }
    extra::fill(numbers_of(measured::phase(raw)), extra);
    0
}

// What a raw lock time indicator measures. Extra: 1 a count, and the count.
#[unsafe(no_mangle)]
pub extern "C" fn pv_1001_lock(raw: u32, extra: &mut [u64]) -> u32
    ensures { returned result extra.new tt ≡ reads measured_values (Accepted (lock_of raw)) extra.old }
{
    if extra.len() != 8 {
        return 9;
    }
    extra::fill(numbers_of(measured::lock(raw)), extra);
    0
}

// How many observations, the end bit, and the header.
impl Values for Message {
    ghost listed = { λ m. seen_values (seen m.header m.count m.end) };

    #[inline(always)]
    fn values(self) -> [u64; 8] {
        let header = self.header;
        [
            self.count as u64,
            self.end as u64,
            header.station as u64,
            header.epoch as u64,
            header.synchronous as u64,
            header.smoothing as u64,
            header.interval as u64,
            0,
        ]
    }
}

// What a raw number measures: 0 absent, 1 a count or 2 metres, and the count or the 64 bits of the double. It is no `Values`,
// since it asks that a length is a number.
fn numbers_of(measured: Measured) -> [u64; 8]
    requires { IsNumber measured }
    ensures { result ≡ spread (measured_values measured) }
{
    match measured {
        Measured::Absent => [0; 8],
        Measured::Count(count) => [1, count as u64, 0, 0, 0, 0, 0, 0],
        Measured::Metres(metres) => [2, f64::to_bits(metres), 0, 0, 0, 0, 0, 0],
    }
}
