// Numbers, with blanks before them up to a width.
ghost use Rattle.std.specs.Prelude.{◌≡◌, false};
ghost use Rattle.io.specs.Digits.{last_digits};
ghost use Rattle.printing.specs.Gathered.{add};
ghost use Rattle.printing.specs.Numbers.{amount_of, add_sign, Signed, Phrase, Hundredths, Hex};

use crate::{Output, Sink};

// A signed number: its size, and whether it is below zero. It reaches further than an i64: any u64 is an amount too.
#[derive(Clone, Copy)]
pub struct Amount {
    pub negative: bool,
    pub size: u64,
}

impl From<i64> for Amount {
    ghost from_gives = { λ z a. a ≡ amount_of z };

    fn from(z: i64) -> Amount {
        Amount {
            negative: z < 0,
            size: z.unsigned_abs(),
        }
    }
}

impl<S: Sink> Output<S> {
    // Adds the number.
    pub fn unsigned(&mut self, n: u64, width: usize)
        ensures { Signed (record { negative = false; size = n }) width self.old self.new }
    {
        let amount = Amount {
            negative: false,
            size: n,
        };
        self.signed(amount, width);
    }

    // Adds the amount.
    pub fn signed(&mut self, amount: Amount, width: usize)
        ensures { Signed amount width self.old self.new }
    {
        let mut digits = [0u8; 20];
        let k = io::decimal(amount.size, &mut digits);
        self.sign(amount.negative, width.saturating_sub(k));
        self.bytes(&digits[..k]);
    }

    // Adds words, the number, and words.
    pub fn phrase(&mut self, before: &str, n: u64, width: usize, behind: &str)
        ensures { Phrase before.now n width behind.now self.old self.new }
    {
        self.phrase_bytes(before.as_bytes(), n, width, behind.as_bytes());
    }

    // Adds bytes, which need not be text, the number, and bytes.
    pub fn phrase_bytes(&mut self, before: &[u8], n: u64, width: usize, behind: &[u8])
        ensures { Phrase before.now n width behind.now self.old self.new }
    {
        self.bytes(before);
        self.unsigned(n, width);
        self.bytes(behind);
    }

    // Adds an amount of hundredths as a number with two decimals.
    pub fn hundredths(&mut self, amount: Amount, width: usize)
        ensures { Hundredths amount width self.old self.new }
    {
        let size = amount.size;
        let whole = Amount {
            negative: amount.negative,
            size: size / 100,
        };
        self.signed(whole, width.saturating_sub(3));
        self.text(".");
        self.two_digits(size);
    }

    // Adds the number in hexadecimal digits, with zeros before it up to the width, of 1 to 16.
    pub fn hex(&mut self, n: u64, width: usize)
        ensures { Hex n width self.old self.new }
    {
        let mut digits = [0u8; 16];
        let k = io::hex(n, width, &mut digits);
        self.bytes(&digits[..k]);
    }

    // Adds n blanks, of which the last gives way to a minus sign if there is one.
    fn sign(&mut self, negative: bool, n: usize)
        ensures { self.new ≡ add_sign negative n self.old }
    {
        if negative {
            self.blanks(n.saturating_sub(1));
            self.text("-");
            return;
        }
        self.blanks(n);
    }

    // Adds the last two digits of n.
    fn two_digits(&mut self, n: u64)
        ensures { self.new ≡ add (last_digits 10 2 n) self.old }
    {
        let tens = (n / 10 % 10) as u8;
        let ones = (n % 10) as u8;
        self.bytes(&[b'0' + tens, b'0' + ones]);
    }
}
