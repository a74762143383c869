// Bias blocks, and biases in metres.
ghost use Rattle.std.specs.Prelude.{◌≡◌, [], ◌∷◌};
ghost use Rattle.messages.specs.Read1059.{read1059};
ghost use Rattle.messages.specs.Read1230.{read1230};
ghost use Rattle.messages.specs.Write1059.{write1059};
ghost use Rattle.messages.specs.Write1230.{write1230};
ghost use Rattle.messages.specs.Metres.{metres1059, metres1230};
ghost use Rattle.peerivolt.specs.Extra.{returned, answered};
ghost use Rattle.peerivolt.specs.Fields.{end_values};
ghost use Rattle.peerivolt.specs.Biases.{counted_values};

use crate::extra;
use crate::extra::Values;
use messages::answer::Records;
use messages::bias::{Bias1059, Bias1230};
use messages::{read1059, read1230, write1059, write1230};

// Reads the block of message 1059 from bit `start` on into the lists. Extra: how many records, and the end bit.
#[unsafe(no_mangle)]
pub extern "C" fn pv_1059_read(
    bytes: &[u8],
    start: usize,
    satellites: &mut [u8],
    signals: &mut [u8],
    biases: &mut [i16],
    extra: &mut [u64],
) -> u32
    ensures { returned result extra.new (satellites.new, signals.new, biases.new) ≡ answered counted_values extra.old (satellites.old, signals.old, biases.old) (read1059 bytes.now start satellites.old signals.old biases.old) }
{
    if extra.len() != 8 {
        return 9;
    }
    extra::tell(
        read1059::read(bytes, start, satellites, signals, biases),
        extra,
    )
}

// Writes the block of message 1059 from bit `start` on, by an edition of its signals. Extra: the end bit.
#[unsafe(no_mangle)]
pub extern "C" fn pv_1059_write(
    edition: u32,
    bytes: &mut [u8],
    start: usize,
    satellites: &[u8],
    signals: &[u8],
    biases: &[i16],
    extra: &mut [u64],
) -> u32
    ensures { returned result extra.new bytes.new ≡ answered end_values extra.old bytes.old (write1059 edition bytes.old start satellites.now signals.now biases.now) }
{
    if extra.len() != 8 {
        return 9;
    }
    extra::tell(
        write1059::write(edition, bytes, start, satellites, signals, biases),
        extra,
    )
}

// Reads the block of message 1230 from bit `start` on into the lists. Extra: how many records, and the end bit.
#[unsafe(no_mangle)]
pub extern "C" fn pv_1230_read(
    bytes: &[u8],
    start: usize,
    signals: &mut [u8],
    biases: &mut [i16],
    extra: &mut [u64],
) -> u32
    ensures { returned result extra.new (signals.new, biases.new) ≡ answered counted_values extra.old (signals.old, biases.old) (read1230 bytes.now start signals.old biases.old) }
{
    if extra.len() != 8 {
        return 9;
    }
    extra::tell(read1230::read(bytes, start, signals, biases), extra)
}

// Writes the block of message 1230 from bit `start` on. Extra: the end bit.
#[unsafe(no_mangle)]
pub extern "C" fn pv_1230_write(
    bytes: &mut [u8],
    start: usize,
    signals: &[u8],
    biases: &[i16],
    extra: &mut [u64],
) -> u32
    ensures { returned result extra.new bytes.new ≡ answered end_values extra.old bytes.old (write1230 bytes.old start signals.now biases.now) }
{
    if extra.len() != 8 {
        return 9;
    }
    extra::tell(write1230::write(bytes, start, signals, biases), extra)
}

// A raw bias of message 1059 in metres.
#[unsafe(no_mangle)]
pub extern "C" fn pv_1059_metres(raw: i16) -> f32
    ensures { result ≡ metres1059 raw }
{
    Bias1059(raw).metres()
}

// A raw bias of message 1230 in metres.
#[unsafe(no_mangle)]
pub extern "C" fn pv_1230_metres(raw: i16) -> f32
    ensures { result ≡ metres1230 raw }
{
    Bias1230(raw).metres()
}

// How many records were read, and the bit behind the block.
impl Values for Records {
    ghost listed = { λ r. r.count ∷ r.end ∷ [] };

    #[inline(always)]
    fn values(self) -> [u64; 8] {
        [self.count as u64, self.end as u64, 0, 0, 0, 0, 0, 0]
    }
}
