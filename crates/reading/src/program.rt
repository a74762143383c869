// A program that goes through recordings, and what it says of itself and of what failed.
ghost use Rattle.std.specs.Prelude.{◌≡◌, ◌≤◌, length, false, IfOk, IfErr, IfSome, None};
ghost use Rattle.reading.specs.Arguments.{IsFile};

use crate::arguments::{Kind, Word};
use crate::asked::Asked;
use crate::{Source, arguments};
use printing::{Output, Sink, Terminal, Unwritten};
use std::env::{Env, FillError};
use std::fs::{File, Files};
use std::io;
use std::rt::{Stderr, Stdin, Stdout};

// The system's numbers for a word that is not there, and for one that is too long.
const INVALID: i32 = 22;

const TOO_LONG: i32 = 36;

// Why a program does not do all that it is asked for. What happened was said.
#[derive(Clone, Copy, Debug, PartialEq, Eq)]
pub enum Failure {
    // What the words ask for is nothing that the program does.
    Refused,
    // A recording cannot be read to its end.
    Unread,
    // An output cannot be written: the program stops.
    Unwritten,
}

impl From<Unwritten> for Failure {
    ghost use Rattle.reading.specs.declared.program.Failure.TheVariants as F;

    ghost from_gives = { λ _ f. f ≡ F.Unwritten };

    fn from(_unwritten: Unwritten) -> Failure {
        Failure::Unwritten
    }
}

// The name, and the streams of the system.
#[derive(Clone, Copy)]
pub struct Program {
    name: &'static str,
    input: Stdin,
    terminal: Terminal,
}

impl Program {
    pub fn new(name: &'static str, input: Stdin, output: Stdout, errors: Stderr) -> Program
        ensures { (result.name.now ≡ name.now) × (result.input ≡ input) × (result.terminal ≡ record { output = output; errors = errors }) }
    {
        Program {
            name,
            input,
            terminal: Terminal::new(output, errors),
        }
    }

    pub fn terminal(&self) -> Terminal
        ensures { result ≡ self.now.terminal }
    {
        self.terminal
    }

    pub fn input(&self) -> Source
        ensures { result ≡ Source.Input self.now.input }
    {
        Source::Input(self.input)
    }

    // Text on its way to standard output.
    pub fn output(&self) -> Output<Terminal>
        ensures { result.waiting ≡ 0 }
    {
        Output::new(self.terminal)
    }

    // The word of argument i. Where there is none that fits, that is said.
    pub fn word(&self, env: &impl Env, i: usize) -> Result<Word, Failure>
        ensures fits { IfOk result (λ w. length w ≤ 4096) }
        ensures said { IfErr result (λ e. e ≡ Failure.Unread) }
    {
        match Word::of(env, i) {
            Ok(word) => Ok(word),
            Err(error) => {
                self.terminal.fail(b"argument", &wrong_word(error));
                Err(Failure::Unread)
            }
        }
    }

    // Opens what a word names, which is standard input or a file, and answers what it is called. Where it cannot be opened,
    // that is said.
    pub fn source<'a>(
        &self,
        files: &impl Files<File = File>,
        word: &'a [u8],
    ) -> Result<(Source, &'a [u8]), Failure>
        ensures { IfErr result (λ e. e ≡ Failure.Unread) }
    {
        match arguments::operand_of(word) {
            Kind::Input => Ok((self.input(), b"standard input")),
            _ => Ok((self.open(files, word)?, word)),
        }
    }

    // Opens a file. Where it cannot be opened, that is said.
    pub fn open(&self, files: &impl Files<File = File>, path: &[u8]) -> Result<Source, Failure>
        ensures opened { IfOk result IsFile }
        ensures said { IfErr result (λ e. e ≡ Failure.Unread) }
    {
        match open_text(files, path) {
            Ok(file) => Ok(Source::File(file)),
            Err(error) => {
                self.terminal.fail(path, &error);
                Err(Failure::Unread)
            }
        }
    }

    // Says that argument i is no option of the program.
    pub fn unknown(&self, env: &impl Env, i: usize) -> Failure
        ensures { result ≡ Failure.Refused }
    {
        let name = self.name;
        let word = Word::or_empty(env, i);
        self.say(": no such option: ");
        self.terminal.say_bytes(word.bytes());
        self.terminal.say(format_args!(
            " ({name} --help lists them; a file is named with ./ before its dash)\n"
        ));
        Failure::Refused
    }

    // Says that the arguments name no recording.
    pub fn no_file(&self) -> Failure
        ensures { result ≡ Failure.Refused }
    {
        self.misnamed("a file, or - for standard input")
    }

    // Says that the words behind the options are not those that the program takes.
    pub fn misnamed(&self, wanted: &str) -> Failure
        ensures { result ≡ Failure.Refused }
    {
        self.misnamed_bytes(wanted.as_bytes())
    }

    // The same of words that need not be text.
    pub fn misnamed_bytes(&self, wanted: &[u8]) -> Failure
        ensures { result ≡ Failure.Refused }
    {
        let name = self.name;
        self.say(": name ");
        self.terminal.say_bytes(wanted);
        self.terminal
            .say(format_args!("; {name} --help says more\n"));
        Failure::Refused
    }

    // Says the name and the words behind it.
    pub fn say(&self, words: &str)
        ensures { result ≡ tt }
    {
        self.terminal.say(self.name);
        self.terminal.say(words);
    }

    // The end: says on the last line that the program failed, if it did. Its exit status is 0 whatever happens.
    pub fn end(&self, done: Result<(), Failure>)
        ensures { result ≡ tt }
    {
        if done.is_err() {
            self.say(": failed\n");
        }
    }

    // If it is asked for, writes what the program tells of itself: the text for --help, or its version.
    pub fn about(&self, asked: Asked, help: &str) -> Option<Result<(), Failure>>
        ensures told { IfSome result (λ r. IfErr r (λ e. e ≡ Failure.Unwritten)) }
        ensures unasked { asked.help ≡ false → asked.version ≡ false → result ≡ None }
    {
        if asked.help {
            return Some(self.tell(help));
        }
        if asked.version {
            return Some(self.version());
        }
        None
    }

    // Writes the program's name and its version, that of the library.
    fn version(&self) -> Result<(), Failure>
        ensures { IfErr result (λ e. e ≡ Failure.Unwritten) }
    {
        self.tell(self.name)?;
        self.tell(" 0.2.0\n")
    }

    // Writes what the program tells of itself. Where it cannot be written, that is said.
    fn tell(&self, words: &str) -> Result<(), Failure>
        ensures { IfErr result (λ e. e ≡ Failure.Unwritten) }
    {
        let mut terminal = self.terminal;
        terminal.put(words.as_bytes())?;
        Ok(())
    }
}

fn wrong_word(error: FillError) -> io::Error {
    io::Error::from_raw_os_error(match error {
        FillError::NotPresent => INVALID,
        FillError::TooLong => TOO_LONG,
    })
}

fn open_text(files: &impl Files<File = File>, path: &[u8]) -> io::Result<File> {
    File::open(files, arguments::text_of(path)?)
}
