// Writing a settings block.
ghost use Rattle.std.specs.Prelude.{◌≡◌, ◌+◌, ◌≤◌, ◌<◌, ◌^◌, length, position, zip};
ghost use Rattle.bits.specs.Outcome.{outcome};
ghost use Rattle.bits.specs.Onto.{onto, over};
ghost use Rattle.bits.specs.Crc.{three_bytes};
ghost use Rattle.settings.specs.Block.{bad, listed, byte_of, block_of};
ghost use Rattle.settings.specs.Edition.{number_of};
ghost use Rattle.settings.specs.Write.{write_settings};
ghost use Rattle.settings.specs.Answers.{told_written};

use crate::layout;
use crate::layout::Edition;
use bits::crc;
use bits::refusal::Refusal;

// Writes the numbers, and in edition 2 their priorities, as the block of this index to the front of the output. Range carries
// the index of the bad number or priority; 0 for the block's index.
pub fn write(
    edition: u32,
    index: u32,
    numbers: &[u16],
    priorities: &[u8],
    out: &mut [u8],
) -> Result<(), Refusal>
    ensures { outcome (told_written result) out.new ≡ write_settings edition index numbers.now priorities.now out.old }
{
    let edition = Edition::try_from(edition)?;
    if numbers.len() != priorities.len() || 64 < numbers.len() {
        return Err(Refusal::Size);
    }
    let Ok(index) = u16::try_from(index) else {
        return Err(Refusal::Range(0));
    };
    if let Some(k) = first_bad(edition, numbers, priorities) {
        return Err(Refusal::Range(k));
    }
    if out.len() < 512 {
        return Err(Refusal::Room(512));
    }
    put_block(edition, index, numbers, priorities, out);
    Ok(())
}

// The first entry with a bad number or priority.
fn first_bad(edition: Edition, numbers: &[u16], priorities: &[u8]) -> Option<usize>
    requires { length numbers.now ≡ length priorities.now }
    ensures { result ≡ position (λ e. bad (number_of edition) e.0 e.1) (zip numbers.now priorities.now) }
{
    numbers
        .iter()
        .zip(priorities)
        .position(|(number, priority)| edition.forbids(*number, *priority))
}

// Writes the block over the first 512 bytes.
fn put_block(edition: Edition, index: u16, numbers: &[u16], priorities: &[u8], out: &mut [u8])
    requires { (length numbers.now ≡ length priorities.now) × (length numbers.now ≤ 64) × (512 ≤ length out.old) }
    ensures { out.new ≡ onto (block_of (number_of edition) index numbers.now priorities.now) out.old }
{
    put_bytes(edition, index, numbers, priorities, out);
    let sum = crc::crc24q(&out[0..509]);
    put_three(out, 509, sum);
}

// Writes the first 509 bytes of the block.
fn put_bytes(edition: Edition, index: u16, numbers: &[u16], priorities: &[u8], out: &mut [u8])
    requires { (length numbers.now ≡ length priorities.now) × (length numbers.now ≤ 64) × (512 ≤ length out.old) }
    ensures { out.new ≡ onto (listed (byte_of (number_of edition) index numbers.now priorities.now) 0 509) out.old }
{
    for i in 0..509 {
        out[i] = layout::byte_of(edition, index, numbers, priorities, i);
    }
}

// Writes a number of 24 bits over three bytes from byte i on, highest first. The same stands in frames: a public function
// may ask nothing of its caller.
fn put_three(out: &mut [u8], i: usize, v: u32)
    requires { (i + 3 ≤ length out.old) × (v < 2 ^ 24) }
    ensures { out.new ≡ over i (three_bytes v) out.old }
{
    out[i] = (v / 0x1_0000) as u8;
    out[i + 1] = (v / 0x100 % 0x100) as u8;
    out[i + 2] = (v % 0x100) as u8;
}
