// Writing the bias block of message 1230.
ghost use Rattle.std.specs.Prelude.{◌≡◌, true, cond, [], ◌+◌, ◌*◌, ◌^◌, ◌≤◌, ◌<◌, length, eqb};
ghost use Rattle.bits.specs.Outcome.{outcome};
ghost use Rattle.bits.specs.Field.{put_field};
ghost use Rattle.bits.specs.Fields.{put_all};
ghost use Rattle.messages.specs.Answers.{told_block};
ghost use Rattle.formats.specs.Put.{RoomFor};
ghost use Rattle.formats.specs.Written.{first_fault};
ghost use Rattle.messages.specs.Records.{records1230};
ghost use Rattle.messages.specs.Layout1230.{of_signal};
ghost use Rattle.messages.specs.Writer.{first_repeat};
ghost use Rattle.messages.specs.Write1230.{is_in, fault1230, fields1230, write1230};
ghost use Rattle.messages.specs.StepsFault.{told_fault};
ghost use Rattle.messages.specs.StepsWrite1230.{bias_fields1230, joined, Faultless1230};

use crate::put;
use crate::read1230::MASK_SIGNALS;
use bits::refusal::Refusal;

// Writes the block of the records from bit `start` on, in the order of the mask, whatever order the list has. Record i is
// signal i and bias i of two lists of one length.
pub fn write(
    bytes: &mut [u8],
    start: usize,
    signals: &[u8],
    biases: &[i16],
) -> Result<usize, Refusal>
    ensures { outcome (told_block result) bytes.new ≡ write1230 bytes.old start signals.now biases.now }
{
    if 1023 < bytes.len() {
        return Err(Refusal::Size);
    }
    if signals.len() != biases.len() {
        return Err(Refusal::Size);
    }
    if 4 < signals.len() {
        return Err(Refusal::Size);
    }
    write_few(bytes, start, signals, biases)
}

// Writes the block of at most four records. It stands alone for speed: a call that many refusals come before is one that
// the compiler holds for rare, and does not copy into its caller.
fn write_few(
    bytes: &mut [u8],
    start: usize,
    signals: &[u8],
    biases: &[i16],
) -> Result<usize, Refusal>
    requires { (length bytes.old ≤ 1023) × (length signals.now ≡ length biases.now) × (length signals.now ≤ 4) }
    ensures { outcome (told_block result) bytes.new ≡ write1230 bytes.old start signals.now biases.now }
{
    first_unknown(signals)?;
    first_repeat(signals)?;
    let bits = 4 + signals.len() * 16;
    if !put::has_room(bytes.len(), start, bits) {
        return Err(Refusal::Room(bits));
    }
    put_block(bytes, start, signals, biases);
    Ok(start + bits)
}

// Signal with the index of the first signal that the mask lacks.
fn first_unknown(signals: &[u8]) -> Result<(), Refusal>
    ensures { told_fault result ≡ first_fault fault1230 0 signals.now }
{
    for (i, signal) in signals.iter().enumerate() {
        if !is_in(*signal, &MASK_SIGNALS) {
            return Err(Refusal::Signal(i));
        }
    }
    Ok(())
}

// Duplicate with the index of the first signal that stands at an earlier place too.
fn first_repeat(signals: &[u8]) -> Result<(), Refusal>
    ensures { told_fault result ≡ first_repeat eqb 0 [] signals.now }
{
    for (i, signal) in signals.iter().enumerate() {
        if is_in(*signal, &signals[0..i]) {
            return Err(Refusal::Duplicate(i));
        }
    }
    Ok(())
}

// Whether the signal is in the list. `contains` (tried) is slower on so few.
fn is_in(signal: u8, signals: &[u8]) -> bool
    ensures { result ≡ is_in signal signals.now }
{
    for other in signals {
        if *other == signal {
            return true;
        }
    }
    false
}

// The mask, and the biases in its order. The two lists go one by one, as C lends them: two functions alone ask that they
// have no fault.
fn put_block(bytes: &mut [u8], start: usize, signals: &[u8], biases: &[i16])
    requires { RoomFor bytes.old start (fields1230 (records1230 signals.now biases.now)) × Faultless1230 signals.now biases.now }
    ensures { bytes.new ≡ put_all bytes.old start (fields1230 (records1230 signals.now biases.now)) }
{
    let none = Joined { mask: 0, word: 0 };
    let a = none.with(2, signals, biases);
    let b = a.with(3, signals, biases);
    let c = b.with(8, signals, biases);
    let all = c.with(9, signals, biases);
    all.put(bytes, start, signals.len());
}

// Bits of a mask, and the biases of their signals as one number, the last one's 16 bits lowest.
#[derive(Clone, Copy)]
struct Joined {
    mask: u64,
    word: u64,
}

impl Joined {
    // With the bit of one more signal below those of the mask, and its bias below the others.
    fn with(self, signal: u8, signals: &[u8], biases: &[i16]) -> Joined
        requires { Faultless1230 signals.now biases.now × (self.mask < 8) × (self.word < 2 ^ 48) }
        ensures { (result.mask ≡ self.mask * 2 + cond (is_in signal signals.now) 1 0) × (result.word ≡ joined self.word (bias_fields1230 (of_signal signal (records1230 signals.now biases.now)))) }
    {
        for (i, other) in signals.iter().enumerate() {
            if *other == signal {
                let word = put::bits_of::<16>(biases[i]);
                return Joined {
                    mask: self.mask * 2 + 1,
                    word: (self.word << 16) + word,
                };
            }
        }
        Joined {
            mask: self.mask * 2,
            word: self.word,
        }
    }

    // Writes the mask and the n biases. Up to three of them and the mask are one field to write; four are cut in two.
    fn put(self, bytes: &mut [u8], start: usize, n: usize)
        requires { (length bytes.old ≤ 1023) × (start + (4 + n * 16) ≤ length bytes.old * 8) × (n ≤ 4) × (self.mask < 16) × (self.word < 2 ^ (n * 16)) }
        ensures { bytes.new ≡ put_field bytes.old start (4 + n * 16) (self.mask * 2 ^ (n * 16) + self.word) }
    {
        if n < 4 {
            let number = (self.mask << (n * 16)) + self.word;
            let _end = put::unsigned(bytes, start, 4 + n * 16, number);
            return;
        }
        let upper = (self.mask << 32) + (self.word >> 32);
        let at = put::unsigned(bytes, start, 36, upper);
        let _end = put::unsigned(bytes, at, 32, self.word % 4294967296);
    }
}
