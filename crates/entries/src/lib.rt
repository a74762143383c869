// The bias cache over a lent list of entry structs. What it does is by value, and asks crate cache.
#![tactic(auto)]

ghost use Rattle.std.specs.Prelude.{◌≡◌, ◌&&◌, length, map, position};
ghost use Rattle.std.specs.Option.{option_or};
ghost use Rattle.bits.specs.Outcome.{outcome};
ghost use Rattle.cache.specs.Cache.{value, blank, entry_of, free, has_key, fits_key, fits_value, fits, Store, Remove, Lookup, admitted, step};
ghost use Rattle.cache.specs.Answers.{key_of as cache_key_of, told_admitted, told_found};
ghost use Rattle.entries.specs.Entries.{numbers_of, key_of, value_of, told_answer};

use bits::refusal::Refusal;
use cache::cache::{Key, Value};

// An entry: 1 if it is in use or 0 if it is free, its key, its IOD, and its bias in 16 bits of two's complement.
#[repr(C)]
#[derive(Clone, Copy)]
pub struct Entry {
    pub in_use: u16,
    pub provider: u16,
    pub solution: u16,
    pub satellite: u16,
    pub signal: u16,
    pub iod: u16,
    pub bias: u16,
}

// Stores the value of e under its key: over the first entry with the key, else in the first free one. Whether e says that
// it is in use does not matter.
pub fn store(s: &mut [Entry], e: Entry) -> Result<(), Refusal>
    ensures { outcome (told_answer result) (map numbers_of s.new) ≡ step (Store (key_of e) (value_of e)) (map numbers_of s.old) }
{
    admit(s, fits(e))?;
    let Some(i) = place_for(s, e) else {
        return Err(Refusal::Full);
    };
    s[i] = used(e);
    Ok(())
}

// Frees the first entry with the key of e.
pub fn remove(s: &mut [Entry], e: Entry) -> Result<(), Refusal>
    ensures { outcome (told_answer result) (map numbers_of s.new) ≡ step (Remove (key_of e)) (map numbers_of s.old) }
{
    admit(s, cache::cache::fits_key(key_of(e)))?;
    let Some(i) = place(s, e) else {
        return Err(Refusal::Absent);
    };
    s[i] = vacated();
    Ok(())
}

// The value of the first entry with the key of e.
pub fn lookup(s: &[Entry], e: Entry) -> Result<Value, Refusal>
    ensures { outcome (told_found result) (map numbers_of s.now) ≡ step (Lookup (key_of e)) (map numbers_of s.now) }
{
    admit(s, cache::cache::fits_key(key_of(e)))?;
    match place(s, e) {
        Some(i) => Ok(value_of(s[i])),
        None => Err(Refusal::Absent),
    }
}

// What every call refuses first: a list of more than 512 entries, then a number outside its field.
fn admit(s: &[Entry], fits: bool) -> Result<(), Refusal>
    ensures { told_admitted result ≡ admitted (length s.now) fits }
{
    cache::cache::admit(s.len(), fits)
}

// Where e is stored: the first place with its key, else the first free one. The three searches are those of cache, where an
// element is the array of numbers that C lends.
fn place_for(s: &[Entry], e: Entry) -> Option<usize>
    ensures { result ≡ option_or (position (λ x. has_key (key_of e) (numbers_of x)) s.now) (position (λ x. free (numbers_of x)) s.now) }
{
    place(s, e).or_else(|| vacant(s))
}

// The first place with the key of e.
fn place(s: &[Entry], e: Entry) -> Option<usize>
    ensures { result ≡ position (λ x. has_key (key_of e) (numbers_of x)) s.now }
{
    s.iter()
        .position(|x| cache::cache::has_key(numbers(*x), numbers(e)))
}

// The first free place.
fn vacant(s: &[Entry]) -> Option<usize>
    ensures { result ≡ position (λ x. free (numbers_of x)) s.now }
{
    s.iter().position(|x| x.in_use == 0)
}

// Whether the key and the value of e lie within their message fields.
fn fits(e: Entry) -> bool
    ensures { result ≡ fits (Store (key_of e) (value_of e)) }
{
    let value = value_of(e);
    cache::cache::fits_key(key_of(e)) && cache::cache::fits_value(value.iod, value.bias)
}

fn key_of(e: Entry) -> Key
    ensures { cache_key_of result ≡ key_of e }
{
    Key {
        provider: u32::from(e.provider),
        solution: u32::from(e.solution),
        satellite: u32::from(e.satellite),
        signal: u32::from(e.signal),
    }
}

fn value_of(e: Entry) -> Value
    ensures { value result.iod result.bias ≡ value_of e }
{
    Value {
        iod: u32::from(e.iod),
        bias: cache::cache::widened(e.bias),
    }
}

// The entry, in use.
fn used(e: Entry) -> Entry
    ensures { numbers_of result ≡ entry_of (key_of e) (value_of e) }
{
    Entry { in_use: 1, ..e }
}

// A freed entry.
fn vacated() -> Entry
    ensures { numbers_of result ≡ blank }
{
    Entry {
        in_use: 0,
        provider: 0,
        solution: 0,
        satellite: 0,
        signal: 0,
        iod: 0,
        bias: 0,
    }
}

// The seven numbers of an entry.
fn numbers(e: Entry) -> [u16; 7]
    ensures { result ≡ numbers_of e }
{
    [
        e.in_use,
        e.provider,
        e.solution,
        e.satellite,
        e.signal,
        e.iod,
        e.bias,
    ]
}
