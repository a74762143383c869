// Reading the bias block of message 1230.
ghost use Rattle.std.specs.Prelude.{◌≡◌, [], ◌∷◌, ◌+◌, ◌*◌, ◌≤◌, ◌<◌, length};
ghost use Rattle.bits.specs.Told.{Accepted};
ghost use Rattle.bits.specs.declared.refusal.Refusal.TheVariants.{Short};
ghost use Rattle.bits.specs.Field.{field, missing};
ghost use Rattle.bits.specs.Outcome.{outcome};
ghost use Rattle.messages.specs.Layout1230.{mask_signals, masked};
ghost use Rattle.messages.specs.StepsRead1230.{biases_at};
ghost use Rattle.messages.specs.Read1230.{read1230};
ghost use Rattle.messages.specs.Answers.{records_of, told_read};
ghost use Rattle.messages.specs.StepsRead.{records_in, Stored, lists1230, put1230, Ready1230};

use crate::answer::Records;
use bits::field;
use bits::refusal::Refusal;

// The signals of the mask from its top bit, 1C, 1P, 2C and 2P, by their glo numbers.
pub(crate) const MASK_SIGNALS: [u8; 4] = [2, 3, 8, 9];

// Reads the block from bit `start` on. The first places of the lists take its records, once all of it is read and they have room.
pub fn read(
    bytes: &[u8],
    start: usize,
    signals: &mut [u8],
    biases: &mut [i16],
) -> Result<Records, Refusal>
    ensures { outcome (told_read result) (signals.new, biases.new) ≡ read1230 bytes.now start signals.old biases.old }
{
    if 1023 < bytes.len() {
        return Err(Refusal::Size);
    }
    if signals.len() != biases.len() {
        return Err(Refusal::Size);
    }
    // DF422: the mask.
    let all = bytes.len() * 8;
    if all < 4 {
        return Err(short(all, start, 4));
    }
    if all - 4 < start {
        return Err(short(all, start, 4));
    }
    let at = start + 4;
    let mask = mask_at(bytes, start);
    // Each bias has 16 bits, so none has to be read to know which is the first that does not fit.
    let count = signals_in(mask);
    let whole = (all - at) / 16;
    if whole < count {
        return Err(short(all, at + whole * 16, 16));
    }
    if signals.len() < count {
        return Err(Refusal::Room(count));
    }
    store(bytes, at, mask, signals, biases);
    let end = at + count * 16;
    Ok(Records { count, end })
}

// The refusal of a field that ends behind the `all` bits of the data: it lacks what lies behind them, which is all of it
// where it starts there. It is as `cut` of bits, which asks something of its caller, so that it is not public.
fn short(all: usize, start: usize, width: usize) -> Refusal
    requires { all < start + width }
    ensures { result ≡ Short start (missing all start width) }
{
    let missing = if all <= start {
        width
    } else {
        width - (all - start)
    };
    Refusal::Short {
        place: start,
        missing,
    }
}

// The four bits of the mask, out of one byte or two. A look at eight bytes would make `read` too large for the compiler to
// copy it into its callers, and its answer would go through memory.
fn mask_at(bytes: &[u8], start: usize) -> u64
    requires { (length bytes.now ≤ 1023) × (start + 4 ≤ length bytes.now * 8) }
    ensures { (result ≡ field bytes.now start 4) × (result < 16) }
{
    let i = start / 8;
    let o = start % 8;
    let first = u64::from(bytes[i]);
    if o < 5 {
        return (first << o) % 256 >> 4;
    }
    let both = first * 256 + u64::from(bytes[i + 1]);
    (both << o) % 65536 >> 12
}

// How many signals a mask of four has.
fn signals_in(mask: u64) -> usize
    requires { mask < 16 }
    ensures { (result ≡ length (masked mask_signals mask)) × (result ≤ 4) }
{
    (mask / 8 % 2 + mask / 4 % 2 + mask / 2 % 2 + mask % 2) as usize
}

// The biases of the mask's signals, into lists that have room for them.
fn store(bytes: &[u8], start: usize, mask: u64, signals: &mut [u8], biases: &mut [i16])
    requires { Ready1230 bytes.now 0 (biases_at bytes.now (masked mask_signals mask) start) signals.old biases.old }
    ensures { lists1230 signals.new biases.new ≡ put1230 0 (records_in (biases_at bytes.now (masked mask_signals mask) start)) (lists1230 signals.old biases.old) }
{
    let mut at = start;
    let mut i: usize = 0;
    for (k, signal) in MASK_SIGNALS.iter().enumerate() {
        if (mask >> (3 - k)) % 2 == 0 {
            continue;
        }
        let one = store_bias(bytes, at, *signal, i, signals, biases);
        i = one.count;
        at = one.end;
    }
}

// One bias, record i.
fn store_bias(
    bytes: &[u8],
    start: usize,
    signal: u8,
    i: usize,
    signals: &mut [u8],
    biases: &mut [i16],
) -> Records
    requires { Ready1230 bytes.now i (biases_at bytes.now (signal ∷ []) start) signals.old biases.old }
    ensures { Stored put1230 i (biases_at bytes.now (signal ∷ []) start) (Accepted (records_of result)) (lists1230 signals.old biases.old) (lists1230 signals.new biases.new) }
{
    // DF423 to DF426: the bias of 1C, 1P, 2C or 2P.
    let (bias, end) = field::read_twos(bytes, start, 16).unwrap();
    signals[i] = signal;
    biases[i] = bias as i16;
    Records { count: i + 1, end }
}
