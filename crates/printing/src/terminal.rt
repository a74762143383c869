// Standard output, and standard error, on which is said what failed.
ghost use Rattle.std.specs.Prelude.{◌≡◌, ◌≤◌, IfOk};

use std::fmt::Display;
use std::io::{Print, Stderr, Stdout, Write};
use std::{io, str};

// An output could not be written. That was said.
#[derive(Clone, Copy, Debug, PartialEq, Eq)]
pub struct Unwritten;

// What gathered text is written to.
pub trait Sink {
    // Writes all of the words. Where that cannot be done, it says so.
    fn put(&mut self, words: &[u8]) -> Result<(), Unwritten>
        ensures { IfOk result (λ u. u ≡ tt) };
}

#[derive(Clone, Copy)]
pub struct Terminal {
    output: Stdout,
    errors: Stderr,
}

impl Terminal {
    pub fn new(output: Stdout, errors: Stderr) -> Terminal
        ensures { result ≡ record { output = output; errors = errors } }
    {
        Terminal { output, errors }
    }

    pub fn errors(&self) -> Stderr
        ensures { result ≡ self.now.errors }
    {
        self.errors
    }

    // Says the words on standard error. Where that cannot be done, there is no place left to tell of it.
    pub fn say(&self, words: impl Display + Drop)
        ensures { result ≡ tt }
    {
        let _ = self.errors.print(words);
    }

    // The same of bytes that need not be text.
    pub fn say_bytes(&self, words: &[u8])
        ensures { result ≡ tt }
    {
        let _ = Print::write_all(&self.errors, words);
    }

    // Says in a line what failed, as the caller names it, and the system's text of the error.
    pub fn fail(&self, what: &[u8], error: &io::Error)
        ensures { result ≡ tt }
    {
        let mut area = [0u8; 256];
        let n = put(error, &mut area);
        self.say_bytes(what);
        self.say(": ");
        self.say(cause(&area[..n]));
        self.say("\n");
    }
}

impl Sink for Terminal {
    fn put(&mut self, words: &[u8]) -> Result<(), Unwritten> {
        match Print::write_all(&self.output, words) {
            Ok(()) => Ok(()),
            Err(error) => {
                self.fail(b"standard output", &error);
                Err(Unwritten)
            }
        }
    }
}

// Puts what an error says of itself at the front of the area, and answers how many bytes there are.
fn put(error: &io::Error, area: &mut [u8; 256]) -> usize
    ensures { result ≤ 256 }
{
    let mut rest: &mut [u8] = area;
    let _ = write!(rest, "{error}");
    256usize.saturating_sub(rest.len())
}

// What an error says, without the number that stands behind the system's text.
fn cause(words: &[u8]) -> &str {
    let Ok(all) = str::from_utf8(words) else {
        return "";
    };
    match all.split_once(" (os error ") {
        Some((text, _)) => text,
        None => all,
    }
}
