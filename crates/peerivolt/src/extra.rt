// An answer in numbers, spread over the extra area.
ghost use Rattle.std.specs.Prelude.{◌≡◌, List, ℕ, length};
ghost use Rattle.bits.specs.Refusals.{told};
ghost use Rattle.peerivolt.specs.Extra.{numbers, in_numbers, spread};

use bits::refusal::Refusal;

// A good answer, as the numbers that it puts into the extra area, with 0 in the places behind them.
pub(crate) trait Values {
    ghost listed: { Self → List ℕ };

    fn values(self) -> [u64; 8]
        ensures { result ≡ spread (listed self) };
}

// Writes the answer to the extra area, and returns 0 or the refusal's number.
#[inline(always)]
pub(crate) fn tell<T: Values>(answer: Result<T, Refusal>, extra: &mut [u64]) -> u32
    requires { length extra.old ≡ 8 }
    ensures { numbers result extra.new ≡ in_numbers T.listed (told (λ v. v) answer) }
{
    match answer {
        Ok(value) => {
            fill(value.values(), extra);
            0
        }
        Err(refusal) => {
            let [first, second] = refusal.carried();
            fill([first, second, 0, 0, 0, 0, 0, 0], extra);
            refusal.number()
        }
    }
}

// Writes eight numbers over the extra area. They are stored one by one, since a copy of slices asks first whether they
// overlap.
#[inline(always)]
pub(crate) fn fill(values: [u64; 8], extra: &mut [u64])
    requires { length extra.old ≡ 8 }
    ensures { extra.new ≡ values }
{
    extra[0] = values[0];
    extra[1] = values[1];
    extra[2] = values[2];
    extra[3] = values[3];
    extra[4] = values[4];
    extra[5] = values[5];
    extra[6] = values[6];
    extra[7] = values[7];
}
