// The bias cache.
ghost use Rattle.std.specs.Prelude.{◌≡◌, [], ◌∷◌};
ghost use Rattle.cache.specs.Cache.{key, value, Store, Remove, Lookup, step};
ghost use Rattle.peerivolt.specs.Extra.{returned, answered, reads};
ghost use Rattle.peerivolt.specs.Cache.{in_long, value_values};

use crate::extra;
use crate::extra::Values;
use cache::cache::{Key, Value};

// Stores a bias, in 32 bits of two's complement, with its IOD under the whole key.
#[unsafe(no_mangle)]
pub extern "C" fn pv_cache_store(
    entries: &mut [[u16; 7]],
    provider: u32,
    solution: u32,
    satellite: u32,
    signal: u32,
    iod: u32,
    bias: u32,
    extra: &mut [u64],
) -> u32
    ensures { returned result extra.new entries.new ≡ answered value_values extra.old entries.old (step (Store (key provider solution satellite signal) (value iod bias)) entries.old) }
{
    if extra.len() != 8 {
        return 9;
    }
    let k = Key {
        provider,
        solution,
        satellite,
        signal,
    };
    extra::tell(cache::cache::store(entries, k, iod, bias), extra)
}

// Frees the entry with the whole key.
#[unsafe(no_mangle)]
pub extern "C" fn pv_cache_remove(
    entries: &mut [[u16; 7]],
    provider: u32,
    solution: u32,
    satellite: u32,
    signal: u32,
    extra: &mut [u64],
) -> u32
    ensures { returned result extra.new entries.new ≡ answered value_values extra.old entries.old (step (Remove (key provider solution satellite signal)) entries.old) }
{
    if extra.len() != 8 {
        return 9;
    }
    let k = Key {
        provider,
        solution,
        satellite,
        signal,
    };
    extra::tell(cache::cache::remove(entries, k), extra)
}

// Looks the whole key up. Extra: the IOD, and the bias.
#[unsafe(no_mangle)]
pub extern "C" fn pv_cache_lookup(
    entries: &[[u16; 7]],
    provider: u32,
    solution: u32,
    satellite: u32,
    signal: u32,
    extra: &mut [u64],
) -> u32
    ensures { returned result extra.new tt ≡ reads value_values (step (Lookup (key provider solution satellite signal)) entries.now).answer extra.old }
{
    if extra.len() != 8 {
        return 9;
    }
    let k = Key {
        provider,
        solution,
        satellite,
        signal,
    };
    extra::tell(cache::cache::lookup(entries, k), extra)
}

// Of an entry that was stored or removed nothing is told.
impl Values for () {
    ghost listed = { λ _. [] };

    #[inline(always)]
    fn values(self) -> [u64; 8] {
        [0; 8]
    }
}

// The IOD, and the bias, whose 32 bits of two's complement are told in 64.
impl Values for Value {
    ghost listed = { λ v. v.iod ∷ in_long v.bias ∷ [] };

    #[inline(always)]
    fn values(self) -> [u64; 8] {
        [self.iod as u64, in_long(self.bias), 0, 0, 0, 0, 0, 0]
    }
}

// 32 bits of two's complement in 64. A sum, as its definition is: by way of i32 and i64 it would be three conversions.
#[tactic(auto, unfolding(crate::specs::Cache::in_long))]
fn in_long(bias: u32) -> u64
    ensures { result ≡ in_long bias }
{
    if bias < 0x8000_0000 {
        return bias as u64;
    }
    bias as u64 + 0xFFFF_FFFF_0000_0000
}
