// Whole messages 1059.
ghost use Rattle.std.specs.Prelude.{◌≡◌};
ghost use Rattle.whole.specs.Messages.{read_message1059, write_message1059};
ghost use Rattle.whole.specs.Whole.{whole};
ghost use Rattle.peerivolt.specs.Extra.{returned, answered};
ghost use Rattle.peerivolt.specs.Fields.{end_values};
ghost use Rattle.peerivolt.specs.Messages.{header1059, message1059_values};

use crate::extra;
use crate::extra::Values;
use whole::answer::{Header1059, Message1059};
use whole::{read1059, write1059};

// Reads message 1059 into the lists. Extra: how many records, the end bit, epoch, update interval, multiple message flag,
// IOD, provider, solution.
#[unsafe(no_mangle)]
pub extern "C" fn pv_1059_message_read(
    bytes: &[u8],
    satellites: &mut [u8],
    signals: &mut [u8],
    biases: &mut [i16],
    extra: &mut [u64],
) -> u32
    ensures { returned result extra.new (satellites.new, signals.new, biases.new) ≡ answered message1059_values extra.old (satellites.old, signals.old, biases.old) (read_message1059 bytes.now satellites.old signals.old biases.old) }
{
    if extra.len() != 8 {
        return 9;
    }
    extra::tell(read1059::read(bytes, satellites, signals, biases), extra)
}

// Writes message 1059, by an edition of its signals. Extra: the end bit.
#[unsafe(no_mangle)]
pub extern "C" fn pv_1059_message_write(
    edition: u32,
    bytes: &mut [u8],
    epoch: u32,
    interval: u32,
    multiple: u32,
    iod: u32,
    provider: u32,
    solution: u32,
    satellites: &[u8],
    signals: &[u8],
    biases: &[i16],
    extra: &mut [u64],
) -> u32
    ensures { returned result extra.new bytes.new ≡ answered end_values extra.old bytes.old (write_message1059 edition bytes.old (header1059 epoch interval multiple iod provider solution) satellites.now signals.now biases.now) }
{
    if extra.len() != 8 {
        return 9;
    }
    let header = Header1059 {
        epoch,
        interval,
        multiple,
        iod,
        provider,
        solution,
    };
    extra::tell(
        write1059::write(edition, bytes, header, satellites, signals, biases),
        extra,
    )
}

// How many records, the end bit, and the header.
impl Values for Message1059 {
    ghost listed = { λ m. message1059_values (whole m.header m.count m.end) };

    #[inline(always)]
    fn values(self) -> [u64; 8] {
        let header = self.header;
        [
            self.count as u64,
            self.end as u64,
            header.epoch as u64,
            header.interval as u64,
            header.multiple as u64,
            header.iod as u64,
            header.provider as u64,
            header.solution as u64,
        ]
    }
}
