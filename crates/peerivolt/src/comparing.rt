// Comparing what was sent with what was received.
ghost use Rattle.std.specs.Prelude.{◌≡◌, [], ◌∷◌};
ghost use Rattle.damage.specs.Compare.{compare};
ghost use Rattle.peerivolt.specs.Extra.{returned, reads};
ghost use Rattle.peerivolt.specs.Damage.{run_values};

use crate::extra;
use crate::extra::Values;
use damage::compare;
use damage::compare::Run;

// Finds the bytes of `received` from the first to the last that differs from those of `sent`. Extra: where they start,
// and how many they are.
#[unsafe(no_mangle)]
pub extern "C" fn pv_differing(sent: &[u8], received: &[u8], extra: &mut [u64]) -> u32
    ensures { returned result extra.new tt ≡ reads run_values (compare sent.now received.now) extra.old }
{
    if extra.len() != 8 {
        return 9;
    }
    extra::tell(compare::compare(sent, received), extra)
}

// Where the differing bytes start, and how many they are.
impl Values for Run {
    ghost listed = { λ r. r.start ∷ r.count ∷ [] };

    #[inline(always)]
    fn values(self) -> [u64; 8] {
        [self.start as u64, self.count as u64, 0, 0, 0, 0, 0, 0]
    }
}
