// Text that is gathered in an area of fixed size and then written.
//
// Where more does not fit behind the bytes that wait, they are written first, so that no byte is lost; a program that is to
// stop where its output cannot be written flushes before that. `specs/` says what each function leaves in the area, as no
// clause does of a `write!`.
#![tactic(auto)]

ghost use Rattle.std.specs.Prelude.{◌≡◌};
ghost use Rattle.printing.specs.Gathered.{gathered, add, blank};

mod number;
mod terminal;

pub use number::Amount;
use std::marker::Model;
pub use terminal::{Sink, Terminal, Unwritten};

const ROOM: usize = 65536;

// Text on its way to a sink. The first `waiting` bytes of the area wait to be written.
#[derive(Drop)]
pub struct Output<S> {
    sink: S,
    area: [u8; 65536],
    waiting: usize,
}

impl<S> Model for Output<S> {
    ghost use Rattle.std.specs.Prelude.{◌≤◌};
    ghost use Rattle.printing.specs.Gathered.{Gathered, gathered};

    ghost Value = { Gathered };

    ghost view = { λ s. gathered s.area s.waiting };

    ghost invariant = { λ s. s.waiting ≤ 65536 };
}

impl<S: Sink> Output<S> {
    // Nothing waits at first.
    pub fn new(sink: S) -> Output<S>
        ensures { result.waiting ≡ 0 }
    {
        Output {
            sink,
            area: [0; 65536],
            waiting: 0,
        }
    }

    // How many bytes wait.
    pub fn waiting(&self) -> usize
        ensures { result ≡ self.now.waiting }
    {
        self.waiting
    }

    // Adds the text.
    pub fn text(&mut self, words: &str)
        ensures { self.new ≡ add words.now self.old }
    {
        self.bytes(words.as_bytes());
    }

    // Adds the bytes, which need not be text.
    #[tactic(auto, unfolding(crate::specs::Gathered::add))]
    pub fn bytes(&mut self, words: &[u8])
        ensures { self.new ≡ add words.now self.old }
    {
        let n = words.len();
        if n <= ROOM - self.waiting {
            let end = self.waiting + n;
            self.area[self.waiting..end].copy_from_slice(words);
            self.waiting = end;
            return;
        }
        let _ = self.flush();
        if n <= ROOM {
            self.area[..n].copy_from_slice(words);
            self.waiting = n;
            return;
        }
        let _ = self.sink.put(words);
    }

    // Adds so many blanks, at most 64.
    pub fn blanks(&mut self, n: usize)
        ensures { self.new ≡ add (blank n) self.old }
    {
        let line = [b' '; 64];
        self.bytes(&line[..n.min(64)]);
    }

    // Writes what waits.
    pub fn flush(&mut self) -> Result<(), Unwritten>
        ensures { self.new ≡ gathered self.old.area 0 }
    {
        let n = self.waiting;
        self.waiting = 0;
        self.sink.put(&self.area[..n])
    }
}
