// The checksum over words of eight bytes. Sparse multiples of the polynomial let a word be taken away and put, shifted,
// into the words behind it: nothing is looked up before the last word.
ghost use Rattle.std.specs.Prelude.{◌≡◌, ◌%◌, ◌^◌, ◌≤◌, ◌<◌, length, drop};
ghost use Rattle.bits.specs.Crc.{crc_from};
ghost use Rattle.bits.specs.FoldSteps.{rem, near, far, nearer, farther, upper, lower, next, sixty, quotient, product, paired, three};

use crate::raw;

// The checksum of the bytes before byte i, for which the word w stands, continued over the words from there on.
pub(crate) fn words(bytes: &[u8], i: usize, w: u64) -> u32
    requires { (i ≤ length bytes.now) × ((length bytes.now % 8) ≡ i % 8) }
    ensures { result ≡ crc_from (rem 64 w) (drop i bytes.now) }
{
    let mut a: u64 = 0;
    let mut b: u64 = 0;
    let mut c = w;
    let mut at = i;
    while at < bytes.len() {
        let x = raw::eight_at(bytes, at) ^ far(a);
        let y = c ^ near(a);
        a = b;
        b = y;
        c = x;
        at += 8;
    }
    close(a, b, c)
}

// The checksum of three words, folded into the last.
fn close(a: u64, b: u64, c: u64) -> u32
    ensures { result ≡ three a b c }
{
    last(c ^ farther(a) ^ next(b ^ nearer(a)))
}

// The checksum of one word: it comes down to 60 bits, and the quotient by the polynomial tells what is left of these.
fn last(w: u64) -> u32
    ensures { result ≡ rem 64 w }
{
    let v = sixty(w);
    ((product(quotient(v >> 24)) ^ v) % 0x100_0000) as u32
}

fn near(u: u64) -> u64
    ensures { result ≡ near u }
{
    (u >> 10) ^ (u >> 14) ^ (u >> 30) ^ (u >> 42)
}

fn far(u: u64) -> u64
    ensures { result ≡ far u }
{
    (u << 54) ^ (u << 50) ^ (u << 34) ^ (u << 22) ^ u
}

fn nearer(u: u64) -> u64
    ensures { result ≡ nearer u }
{
    (u >> 5) ^ (u >> 7) ^ (u >> 15) ^ (u >> 21) ^ (u >> 32)
}

fn farther(u: u64) -> u64
    ensures { result ≡ farther u }
{
    (u << 59) ^ (u << 57) ^ (u << 49) ^ (u << 43) ^ (u << 32)
}

fn next(u: u64) -> u64
    ensures { result ≡ next u }
{
    upper(u >> 32) ^ lower(u % 0x1_0000_0000)
}

fn upper(h: u64) -> u64
    ensures { result ≡ upper h }
{
    (h << 27) ^ (h << 25) ^ (h << 17) ^ (h << 11) ^ h
}

fn lower(l: u64) -> u64
    ensures { result ≡ lower l }
{
    (l << 30)
        ^ (l << 27)
        ^ (l << 25)
        ^ (l << 24)
        ^ (l << 23)
        ^ (l << 17)
        ^ (l << 14)
        ^ (l << 12)
        ^ (l << 5)
}

fn sixty(w: u64) -> u64
    ensures { result ≡ sixty w }
{
    let h = w >> 36;
    ((w << 28) >> 4)
        ^ ((h << 32) ^ (h << 28) ^ (h << 23) ^ (h << 19) ^ (h << 9) ^ (h << 5) ^ (h << 1))
}

fn quotient(h: u64) -> u64
    ensures { result ≡ quotient h }
{
    h ^ (h >> 1)
        ^ (h >> 2)
        ^ (h >> 3)
        ^ (h >> 4)
        ^ (h >> 5)
        ^ (h >> 10)
        ^ (h >> 14)
        ^ (h >> 16)
        ^ (h >> 17)
        ^ (h >> 18)
        ^ (h >> 19)
        ^ (h >> 20)
        ^ (h >> 21)
        ^ (h >> 22)
        ^ (h >> 23)
        ^ (h >> 27)
        ^ (h >> 30)
        ^ (h >> 33)
        ^ (h >> 36)
}

fn product(q: u64) -> u64
    ensures { result ≡ product q }
{
    paired(q ^ (q << 1)) ^ (q << 14) ^ (q << 3)
}

fn paired(u: u64) -> u64
    ensures { result ≡ paired u }
{
    (u << 23) ^ (u << 17) ^ (u << 10) ^ (u << 6) ^ (u << 4) ^ u
}
