// Storing, removing and looking up. An entry is seven numbers: 1 if it is in use or 0 if it is free, provider, solution,
// satellite, signal, IOD, and the bias in 16 bits of two's complement.
ghost use Rattle.std.specs.Prelude.{◌≡◌, true, ◌%◌, ◌^◌, ◌<◌, position};
ghost use Rattle.std.specs.Option.{option_or};
ghost use Rattle.bits.specs.Outcome.{outcome};
ghost use Rattle.cache.specs.Cache.{value, key_in, value_in, free, has_key, widened, entry_of, first, fits_key, fits_value, fits, Store, Remove, Lookup, admitted, step};
ghost use Rattle.cache.specs.Steps.{as_one};
ghost use Rattle.cache.specs.Answers.{key_of, told_admitted, told_stored, told_removed, told_found};

use bits::refusal::Refusal;

// What an entry is stored under.
#[derive(Clone, Copy, Debug, PartialEq, Eq)]
pub struct Key {
    pub provider: u32,
    pub solution: u32,
    pub satellite: u32,
    pub signal: u32,
}

// What is stored under a key: the IOD, and the bias in 32 bits of two's complement.
#[derive(Clone, Copy, Debug, PartialEq, Eq)]
pub struct Value {
    pub iod: u32,
    pub bias: u32,
}

// Stores a value over the entry with its key, else in the first free one. The bias is in 32 bits of two's complement.
pub fn store(entries: &mut [[u16; 7]], key: Key, iod: u32, bias: u32) -> Result<(), Refusal>
    ensures { outcome (told_stored result) entries.new ≡ step (Store (key_of key) (value iod bias)) entries.old }
{
    admit(entries.len(), fits(key, iod, bias))?;
    let e = entry_of(key, iod, bias);
    let Some(i) = place_for(entries, e) else {
        return Err(Refusal::Full);
    };
    entries[i] = e;
    Ok(())
}

// Frees the first entry with the key.
pub fn remove(entries: &mut [[u16; 7]], key: Key) -> Result<(), Refusal>
    ensures { outcome (told_removed result) entries.new ≡ step (Remove (key_of key)) entries.old }
{
    admit(entries.len(), fits_key(key))?;
    let Some(i) = place(entries, entry_of(key, 0, 0)) else {
        return Err(Refusal::Absent);
    };
    entries[i] = [0; 7];
    Ok(())
}

// The value of the first entry with the key.
pub fn lookup(entries: &[[u16; 7]], key: Key) -> Result<Value, Refusal>
    ensures { outcome (told_found result) entries.now ≡ step (Lookup (key_of key)) entries.now }
{
    admit(entries.len(), fits_key(key))?;
    match place(entries, entry_of(key, 0, 0)) {
        Some(i) => Ok(value_in(entries[i])),
        None => Err(Refusal::Absent),
    }
}

// The value of an entry.
fn value_in(e: [u16; 7]) -> Value
    ensures { value result.iod result.bias ≡ value_in e }
{
    Value {
        iod: u32::from(e[5]),
        bias: widened(e[6]),
    }
}

// What every call refuses first: more than 512 entries, then a number outside its field.
pub fn admit(count: usize, fits: bool) -> Result<(), Refusal>
    ensures { told_admitted result ≡ admitted count fits }
{
    if 512 < count {
        return Err(Refusal::Size);
    }
    if !fits {
        return Err(Refusal::Range(0));
    }
    Ok(())
}

// Whether all that is to be stored lies within its message fields.
fn fits(key: Key, iod: u32, bias: u32) -> bool
    ensures { result ≡ fits (Store (key_of key) (value iod bias)) }
{
    fits_key(key) && fits_value(iod, bias)
}

// Whether each number of the key lies within its message field.
#[tactic(auto, unfolding(crate::specs::Cache::fits_key))]
pub fn fits_key(key: Key) -> bool
    ensures { result ≡ fits_key (key_of key) }
{
    key.provider < 0x1_0000 && key.solution < 16 && key.satellite < 64 && key.signal < 32
}

// Whether IOD and bias lie within theirs.
#[tactic(auto, unfolding(crate::specs::Cache::fits_value))]
pub fn fits_value(iod: u32, bias: u32) -> bool
    ensures { result ≡ fits_value (value iod bias) }
{
    iod < 16 && (bias < 8192 || u32::MAX - 8192 < bias)
}

// An entry in use.
#[tactic(auto, unfolding(crate::specs::Cache::fits_key, crate::specs::Cache::fits_value))]
fn entry_of(key: Key, iod: u32, bias: u32) -> [u16; 7]
    requires { (fits_key (key_of key) ≡ true) × (fits_value (value iod bias) ≡ true) }
    ensures { result ≡ entry_of (key_of key) (value iod bias) }
{
    [
        1,
        key.provider as u16,
        key.solution as u16,
        key.satellite as u16,
        key.signal as u16,
        iod as u16,
        (bias % 0x1_0000) as u16,
    ]
}

// Where w is stored: the first place with its key, else the first free one.
fn place_for(entries: &[[u16; 7]], w: [u16; 7]) -> Option<usize>
    ensures { result ≡ option_or (position (has_key (key_in w)) entries.now) (position free entries.now) }
{
    place(entries, w).or_else(|| vacant(entries))
}

// The first place with the key of w.
fn place(entries: &[[u16; 7]], w: [u16; 7]) -> Option<usize>
    ensures { result ≡ position (has_key (key_in w)) entries.now }
{
    entries.iter().position(|e| has_key(*e, w))
}

// The first free place.
fn vacant(entries: &[[u16; 7]]) -> Option<usize>
    ensures { result ≡ position free entries.now }
{
    entries.iter().position(|e| e[0] == 0)
}

// In use, with the whole key of w: provider, solution, satellite and signal.
#[tactic(auto, unfolding(crate::specs::Cache::has_key), using(crate::proofs::CodeLaws::compared))]
pub fn has_key(e: [u16; 7], w: [u16; 7]) -> bool
    ensures { result ≡ has_key (key_in w) e }
{
    e[0] != 0 && as_one(e[1], e[2], e[3], e[4]) == as_one(w[1], w[2], w[3], w[4])
}

// The four numbers of a key as one, so that one comparison tells whether all are the same. In this form it is one load.
#[tactic(auto, unfolding(crate::specs::Steps::as_one))]
fn as_one(provider: u16, solution: u16, satellite: u16, signal: u16) -> u64
    ensures { (result ≡ as_one provider solution satellite signal) × (provider < 2 ^ 16) × (solution < 2 ^ 16) × (satellite < 2 ^ 16) × (signal < 2 ^ 16) }
{
    u64::from(provider)
        + u64::from(solution) * 0x1_0000
        + u64::from(satellite) * 0x1_0000_0000
        + u64::from(signal) * 0x1_0000_0000_0000
}

// 16 bits of two's complement in 32. A sum, as its definition is: by way of i16 and i32 it would be three conversions.
#[tactic(auto, unfolding(crate::specs::Cache::widened))]
pub fn widened(x: u16) -> u32
    ensures { result ≡ widened x }
{
    if x < 0x8000 {
        return u32::from(x);
    }
    u32::from(x) + 0xFFFF_0000
}
