// What the arguments ask for, and what is said to the user.
use crate::found::System;
use reading::arguments::{Kind, Word};
use reading::{Failure, Program, arguments, asked};
use std::env::Env;
use std::str;

// The data bits at which the blocks start, and the edition of the 1059 signals, as the number that the library takes.
#[derive(Clone, Copy)]
pub struct Settings {
    of_1059: usize,
    of_1230: usize,
    pub edition: u32,
}

impl Settings {
    // What holds as a rule: blocks start behind the header of their message.
    pub fn usual() -> Settings {
        Settings {
            of_1059: System::Gps.behind_header(),
            of_1230: System::Glonass.behind_header(),
            edition: 1,
        }
    }

    // Where the blocks of the system start.
    pub fn start(self, system: System) -> usize {
        match system {
            System::Gps => self.of_1059,
            System::Glonass => self.of_1230,
        }
    }

    // What holds behind an argument.
    pub fn behind(self, argument: Argument) -> Settings {
        match argument {
            Argument::Number(option, Some(number)) => self.with(option, number),
            _ => self,
        }
    }

    // What holds once an option sets its number.
    fn with(self, option: Numbered, number: u32) -> Settings {
        let bit = number as usize;
        match option {
            Numbered::Start => Settings {
                of_1059: bit,
                of_1230: bit,
                ..self
            },
            Numbered::Start1059 => Settings {
                of_1059: bit,
                ..self
            },
            Numbered::Start1230 => Settings {
                of_1230: bit,
                ..self
            },
            Numbered::Edition => Settings {
                edition: number,
                ..self
            },
        }
    }
}

// The options behind which a number stands: a data bit, or an edition.
#[derive(Clone, Copy)]
pub enum Numbered {
    Start,
    Start1059,
    Start1230,
    Edition,
}

impl Numbered {
    fn of(word: &[u8]) -> Option<Numbered> {
        match word {
            b"--start" => Some(Numbered::Start),
            b"--start-1059" => Some(Numbered::Start1059),
            b"--start-1230" => Some(Numbered::Start1230),
            b"--edition" => Some(Numbered::Edition),
            _ => None,
        }
    }

    // The number that the word names, if the option takes it. An edition is 1 or 2.
    fn number(self, word: &[u8]) -> Option<u32> {
        let number = number(word)?;
        match self {
            Numbered::Edition if !matches!(number, 1 | 2) => None,
            _ => Some(number),
        }
    }
}

// What an argument is to this program.
#[derive(Clone, Copy)]
pub enum Argument {
    // An option behind which its number is to stand.
    Option(Numbered),
    // What stands behind such an option, with the number that it is; none if the option does not take it.
    Number(Numbered, Option<u32>),
    // What it is to any program. The own option is --latest.
    Other(Kind),
}

impl Argument {
    // What argument i is, where `rest` is the place of `--`.
    pub fn of(env: &impl Env, i: usize, rest: Option<usize>) -> Argument {
        let word = Word::or_empty(env, i);
        if asked::is_behind(i, rest) {
            return Argument::Other(arguments::operand_of(word.bytes()));
        }
        if let Some(option) = option_before(env, i) {
            return Argument::Number(option, option.number(word.bytes()));
        }
        match Numbered::of(word.bytes()) {
            Some(option) => Argument::Option(option),
            None => Argument::Other(arguments::kind_of(word.bytes(), b"--latest")),
        }
    }

    // Its kind: all that no other program has is the program's own.
    pub fn kind(self) -> Kind {
        match self {
            Argument::Other(kind) => kind,
            _ => Kind::Own,
        }
    }
}

// The option whose number argument i is. The first word is the program's name.
fn option_before(env: &impl Env, i: usize) -> Option<Numbered> {
    if i < 2 {
        return None;
    }
    Numbered::of(Word::or_empty(env, i - 1).bytes())
}

// The number that the digits make, if it has at most six behind its zeros.
fn number(digits: &[u8]) -> Option<u32> {
    if !digits.iter().all(u8::is_ascii_digit) {
        return None;
    }
    let number = str::from_utf8(digits).ok()?.parse::<u32>().ok()?;
    if 999_999 < number {
        return None;
    }
    Some(number)
}

// What all the arguments ask for: what the words ask of any program, where an option that has no number behind it and a word
// that it does not take are as unknown as an option that there is not; whether `--latest` is there; and the settings that hold
// behind the last argument.
#[derive(Clone, Copy)]
pub struct Asked {
    pub words: asked::Asked,
    pub latest: bool,
    pub settings: Settings,
}

pub fn all(env: &impl Env) -> Asked {
    let mut asked = Asked {
        words: asked::Asked::nothing(),
        latest: false,
        settings: Settings::usual(),
    };
    let count = arguments::count(env);
    for i in 1..count {
        let argument = Argument::of(env, i, asked.words.rest);
        asked = match argument {
            Argument::Option(_) if i + 1 == count => asked.with_kind(Kind::Unknown, i),
            _ => asked.with(argument, i),
        };
    }
    asked
}

impl Asked {
    // What is asked for with argument i.
    fn with(self, argument: Argument, i: usize) -> Asked {
        match argument {
            Argument::Option(_) => self,
            Argument::Number(_, None) => self.with_kind(Kind::Unknown, i),
            Argument::Number(_, Some(_)) => Asked {
                settings: self.settings.behind(argument),
                ..self
            },
            Argument::Other(Kind::Own) => Asked {
                latest: true,
                ..self
            },
            Argument::Other(kind) => self.with_kind(kind, i),
        }
    }

    fn with_kind(self, kind: Kind, i: usize) -> Asked {
        Asked {
            words: self.words.noted(kind, i),
            ..self
        }
    }
}

// Says what is wrong with argument i: there is no such option, or one that takes a number has none behind it or a word that it
// does not take.
pub fn wrong(env: &impl Env, program: &Program, i: usize, rest: Option<usize>) -> Failure {
    if let Argument::Other(_) = Argument::of(env, i, rest) {
        return program.unknown(env, i);
    }
    program.say(
        ": --start takes the number of a data bit, as --start 61, and --edition takes 1 or 2; rtcm_biases --help says more\n",
    );
    Failure::Refused
}

pub const HELP: &str =
    "rtcm_biases [--start N] [--start-1059 N] [--start-1230 N] [--edition N] [--latest] [--] FILE..

Shows the biases in the RTCM 3 messages 1059 (GPS) and 1230 (GLONASS) of each file (- is standard
input): a table for each message, with the raw numbers and the metres that they stand for, below
what its header tells: of 1059 provider, solution, IOD, epoch, update interval and multiple message
flag, of 1230 station, indicator and reserved bits.
A signal number that is reserved stands in brackets. A table is shown when its frame has arrived.

  --start-1059 N  in the files behind it 1059 blocks start at data bit N, and not at 61
  --start-1230 N  in the files behind it 1230 blocks start at data bit N, and not at 28
  --start N       both
                  of a block that starts elsewhere the header is not shown
  --edition N     in the files behind it the signals of 1059 have the names of edition N, 1 (as a rule) or 2
  --latest        no tables: behind the last file the latest bias of each satellite and signal, by
                  provider and solution, of all whole messages 1059
  --              each word behind it names a file
  --version       the version
  -h, --help      this text

A block that leaves eight or more bits of its message unread is marked: it may start elsewhere.
The exit status is always 0. If something failed, the last line on standard error is
\"rtcm_biases: failed\".
";
