// The arguments of a program that goes through recordings.
ghost use Rattle.std.specs.Prelude.{◌≡◌, ◌<◌, ◌^◌, IfOk};
ghost use Rattle.reading.specs.Arguments.{IsKind, IsOperand};

use std::env::{Env, FillError};
use std::marker::Model;
use std::{io, str};

// The system's number for a name that is no text.
const NO_TEXT: i32 = 84;

// What an argument is. An option begins with `-`; `-` alone is standard input; any other word names a file.
#[derive(Clone, Copy, Debug, PartialEq, Eq)]
pub enum Kind {
    // `--help` or `-h`.
    Help,
    Version,
    // The program's own option.
    Own,
    // `--`: each word behind it names a recording.
    Rest,
    Unknown,
    Input,
    File,
}

// A word of at most 4,096 bytes.
#[derive(Drop)]
pub struct Word {
    area: [u8; 4096],
    length: usize,
}

impl Model for Word {
    ghost use Rattle.std.specs.Prelude.{ℕ, List, take, ◌≤◌};

    ghost Value = { List ℕ };

    ghost view = { λ w. take w.length w.area };

    ghost invariant = { λ w. w.length ≤ 4096 };
}

impl Word {
    ghost use Rattle.std.specs.Prelude.{length, ◌≤◌};

    // The word of argument i, where there is one that fits.
    pub fn of(env: &impl Env, i: usize) -> Result<Word, FillError>
        ensures { IfOk result (λ w. length w ≤ 4096) }
    {
        let mut area = [0u8; 4096];
        let length = env.arg(i, &mut area)?;
        Ok(Word { area, length })
    }

    // The same; the empty word where there is none that fits.
    pub fn or_empty(env: &impl Env, i: usize) -> Word
        ensures { length result ≤ 4096 }
    {
        match Word::of(env, i) {
            Ok(word) => word,
            Err(_) => Word {
                area: [0; 4096],
                length: 0,
            },
        }
    }

    pub fn bytes(&self) -> &[u8]
        ensures { result.now ≡ self.now }
    {
        &self.area[..self.length]
    }
}

// How many arguments there are, the program's own name among them. They are asked for by place: there is no slice of them.
pub fn count(env: &impl Env) -> usize
    ensures { result < 2 ^ 64 }
{
    let mut front = [0u8; 1];
    for i in 0..usize::MAX {
        if let Err(FillError::NotPresent) = env.arg(i, &mut front) {
            return i;
        }
    }
    usize::MAX
}

// What a word is to a program that has the option `own`.
pub fn kind_of(word: &[u8], own: &[u8]) -> Kind
    ensures { IsKind own.now word.now result }
{
    match word {
        b"--help" | b"-h" => Kind::Help,
        b"--version" => Kind::Version,
        _ if word == own => Kind::Own,
        b"--" => Kind::Rest,
        b"-" => Kind::Input,
        [b'-', ..] => Kind::Unknown,
        _ => Kind::File,
    }
}

// What a word behind `--` is: standard input or a file.
pub fn operand_of(word: &[u8]) -> Kind
    ensures { IsOperand word.now result }
{
    match word {
        b"-" => Kind::Input,
        _ => Kind::File,
    }
}

// The path as text, which the system's files are named by.
pub fn text_of(path: &[u8]) -> io::Result<&str>
    ensures { IfOk result (λ t. t.now ≡ path.now) }
{
    match str::from_utf8(path) {
        Ok(text) => Ok(text),
        Err(_) => Err(io::Error::from_raw_os_error(NO_TEXT)),
    }
}
