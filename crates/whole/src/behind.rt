// What the refusal of a block's writer tells of the whole message.
ghost use Rattle.std.specs.Prelude.{◌≡◌, ◌≤◌};
ghost use Rattle.bits.specs.Refusals.{number_of, carried_by};
ghost use Rattle.messages.specs.Answers.{told_block};
ghost use Rattle.whole.specs.Whole.{behind};

use bits::refusal::Refusal;

// The refusal, behind a front of so many bits: Room carries the bits of the whole message. No block has 2^32 of them, so the
// sum is one of the machine.
pub(crate) fn behind(front: usize, refusal: Refusal) -> Refusal
    requires { front ≤ 61 }
    ensures { told_block (Err result) ≡ behind front (number_of refusal) (carried_by refusal) }
{
    let Refusal::Room(bits) = refusal else {
        return refusal;
    };
    if 0xFFFF_FFFF < bits {
        return refusal;
    }
    Refusal::Room(front + bits)
}
