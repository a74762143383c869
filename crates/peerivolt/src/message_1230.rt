// Whole messages 1230.
ghost use Rattle.std.specs.Prelude.{◌≡◌};
ghost use Rattle.whole.specs.Messages.{read_message1230, write_message1230};
ghost use Rattle.whole.specs.Whole.{whole};
ghost use Rattle.peerivolt.specs.Extra.{returned, answered};
ghost use Rattle.peerivolt.specs.Fields.{end_values};
ghost use Rattle.peerivolt.specs.Messages.{header1230, message1230_values};

use crate::extra;
use crate::extra::Values;
use whole::answer::{Header1230, Message1230};
use whole::{read1230, write1230};

// Reads message 1230 into the lists. Extra: how many records, the end bit, station, indicator, reserved bits.
#[unsafe(no_mangle)]
pub extern "C" fn pv_1230_message_read(
    bytes: &[u8],
    signals: &mut [u8],
    biases: &mut [i16],
    extra: &mut [u64],
) -> u32
    ensures { returned result extra.new (signals.new, biases.new) ≡ answered message1230_values extra.old (signals.old, biases.old) (read_message1230 bytes.now signals.old biases.old) }
{
    if extra.len() != 8 {
        return 9;
    }
    extra::tell(read1230::read(bytes, signals, biases), extra)
}

// Writes message 1230. Extra: the end bit.
#[unsafe(no_mangle)]
pub extern "C" fn pv_1230_message_write(
    bytes: &mut [u8],
    station: u32,
    indicator: u32,
    reserved: u32,
    signals: &[u8],
    biases: &[i16],
    extra: &mut [u64],
) -> u32
    ensures { returned result extra.new bytes.new ≡ answered end_values extra.old bytes.old (write_message1230 bytes.old (header1230 station indicator reserved) signals.now biases.now) }
{
    if extra.len() != 8 {
        return 9;
    }
    let header = Header1230 {
        station,
        indicator,
        reserved,
    };
    extra::tell(write1230::write(bytes, header, signals, biases), extra)
}

// How many records, the end bit, and the header.
impl Values for Message1230 {
    ghost listed = { λ m. message1230_values (whole m.header m.count m.end) };

    #[inline(always)]
    fn values(self) -> [u64; 8] {
        let header = self.header;
        [
            self.count as u64,
            self.end as u64,
            header.station as u64,
            header.indicator as u64,
            header.reserved as u64,
            0,
            0,
            0,
        ]
    }
}
