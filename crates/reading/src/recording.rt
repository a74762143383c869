// A recording that is being read.
ghost use Rattle.std.specs.Prelude.{◌≡◌, ◌≤◌, ◌-◌, length};
ghost use Rattle.reading.specs.Account.{Right};

use crate::{Account, Failure, Found, Mode, Source, skips};
use frames::close::Closed;
use frames::scanner::Fed;
use frames::{close, scanner};
use printing::Terminal;

// What a step comes to.
#[derive(Clone, Copy)]
pub enum Step {
    // A frame, which the recording lends out until the next step.
    Frame(Found),
    // A new piece.
    Piece,
    // The recording is at its end.
    End,
}

// Where the bytes come from, and what that is called; the bytes held, the piece, the last frame that was found and its length;
// the account of all of these, which is right; and whether all of each piece was taken before the next one was read.
#[derive(Drop)]
pub struct Recording<'a> {
    source: Source,
    name: &'a [u8],
    terminal: Terminal,
    held: [u8; 1029],
    piece: [u8; 65536],
    frame: [u8; 1029],
    length: usize,
    account: Account,
    whole: bool,
    ghost right: { Right account },
}

// What stood in a recording before a step: the bytes held, and the account.
#[derive(Clone, Copy)]
pub struct Before {
    held: [u8; 1029],
    account: Account,
}

impl<'a> Recording<'a> {
    ghost use Rattle.std.specs.Prelude.{◌≡◌, ◌+◌, ◌-◌, ◌%◌, ◌^◌, ◌<◌, true, false, min, take, drop};
    ghost use Rattle.reading.specs.Account.{AllTaken, RightTaken, RightClosed, RightRead, RightStep};
    ghost use Rattle.reading.specs.Number.{frame_in};
    ghost use Rattle.reading.specs.Skips.{byte_in};

    // Nothing is read at first.
    pub fn new(source: Source, name: &'a [u8], terminal: Terminal, mode: Mode) -> Recording<'a>
        ensures { AllTaken result.account × (result.account.mode ≡ mode) × (result.name.now ≡ name.now) × (result.whole ≡ true) }
    {
        Recording {
            source,
            name,
            terminal,
            held: [0; 1029],
            piece: [0; 65536],
            frame: [0; 1029],
            length: 0,
            account: Account::start(mode),
            whole: true,
        }
    }

    pub fn account(&self) -> Account
        ensures { result ≡ self.now.account }
    {
        self.account
    }

    pub fn name(&self) -> &'a [u8]
        ensures { result.now ≡ self.now.name.now }
    {
        self.name
    }

    // The frame that was found last.
    pub fn frame(&self) -> &[u8]
        ensures { result.now ≡ frame_in self.now.frame self.now.length }
    {
        crate::frame_of(&self.frame, self.length)
    }

    // What a step is about to change, for `skipped_since` and `byte_since`.
    pub fn before(&self) -> Before
        ensures { result ≡ record { held = self.now.held; account = self.now.account } }
    {
        Before {
            held: self.held,
            account: self.account,
        }
    }

    // The same over what an earlier step was about to change: the bytes held alone are copied.
    pub fn note(&self, before: &mut Before)
        ensures account { before.new.account ≡ self.now.account }
        ensures held { take self.now.account.held before.new.held ≡ take self.now.account.held self.now.held }
    {
        let n = self.account.held;
        before.held[..n].copy_from_slice(&self.held[..n]);
        before.account = self.account;
    }

    // How many bytes were skipped since.
    pub fn skipped_since(&self, before: &Before) -> u64
        ensures { (before.now.account.skipped + result) % 2 ^ 64 ≡ self.now.account.skipped }
    {
        self.account.skipped.wrapping_sub(before.account.skipped)
    }

    // The byte at place i of those, which are the first ones of the bytes held then and of the rest of the piece.
    pub fn byte_since(&self, before: &Before, i: usize) -> u8
        ensures { result ≡ byte_in before.now.held before.now.account.held self.now.piece before.now.account.from i }
    {
        let from = before.account;
        skips::byte_at(&before.held, from.held, &self.piece, from.from, i)
    }

    // The first n of those, where they are there: those of the bytes held then, and those of the piece.
    pub fn bytes_since<'b>(&'b self, before: &'b Before, n: usize) -> (&'b [u8], &'b [u8])
        ensures held { result.0.now ≡ take (min n before.now.account.held) before.now.held }
        ensures piece { result.1.now ≡ take (n - before.now.account.held) (drop before.now.account.from self.now.piece) }
    {
        let then = before.account;
        let rest = skips::behind(&self.piece, then.from);
        (
            skips::front(&before.held, n.min(then.held)),
            skips::front(rest, n.saturating_sub(then.held)),
        )
    }

    // Hands out the next frame of the piece, or reads the next piece where there is none.
    pub fn next(&mut self) -> Result<Step, Failure>
        ensures step { RightStep result self.new.account }
        ensures whole { self.new.whole ≡ self.old.whole }
    {
        if let Some(found) = self.take()? {
            return Ok(Step::Frame(found));
        }
        match self.read_on()? {
            Some(_) => Ok(Step::Piece),
            None => Ok(Step::End),
        }
    }

    // Hands out the next frame of the piece, or takes all of it.
    pub fn take(&mut self) -> Result<Option<Found>, Failure>
        ensures taken { RightTaken result self.new.account }
        ensures whole { self.new.whole ≡ self.old.whole }
    {
        let a = self.account;
        let Recording {
            held,
            piece,
            frame,
            ..
        } = self;
        let rest = part(piece, a.from, a.to);
        let Ok(fed) = scanner::feed(held, a.scanner(), rest, frame) else {
            return Err(Failure::Unread);
        };
        match fed {
            Fed::Frame {
                length,
                taken,
                skipped,
                place: _,
                kind,
                scanner,
            } => {
                let (found, account) = a.framed(length, taken, skipped, scanner.count, kind);
                self.length = length;
                self.account = account;
                Ok(Some(found))
            }
            Fed::More {
                taken: _,
                skipped,
                scanner,
            } => {
                self.account = a.passed(skipped, scanner.count);
                Ok(None)
            }
        }
    }

    // At the end of the recording: hands out the next frame among the bytes held, or gives all of them up.
    pub fn close(&mut self) -> Result<Option<Found>, Failure>
        ensures closed { RightClosed result self.new.account }
        ensures whole { self.new.whole ≡ self.old.whole }
    {
        let a = self.account;
        let Ok(closed) = close::close(&mut self.held, a.scanner(), &mut self.frame) else {
            return Err(Failure::Unread);
        };
        match closed {
            Closed::Frame {
                length,
                skipped,
                place: _,
                kind,
                scanner,
            } => {
                let (found, account) = a.framed(length, 0, skipped, scanner.count, kind);
                self.length = length;
                self.account = account;
                Ok(Some(found))
            }
            Closed::Done {
                skipped,
                scanner: _,
            } => {
                self.account = a.emptied(skipped);
                Ok(None)
            }
        }
    }

    // Reads the next piece, once the one before is taken, and answers how many bytes it has; none at the end. Where it
    // cannot be read, that is said.
    fn read_on(&mut self) -> Result<Option<usize>, Failure>
        requires { AllTaken self.old.account }
        ensures read { RightRead result self.new.account }
        ensures whole { self.new.whole ≡ self.old.whole }
    {
        match self.source.read(&mut self.piece) {
            Ok(0) => Ok(None),
            Ok(n) => {
                self.account = self.account.grown(n);
                Ok(Some(n))
            }
            Err(error) => {
                self.terminal.fail(self.name, &error);
                Err(Failure::Unread)
            }
        }
    }

    // The same of any recording: what is left of the piece counts as skipped first, and the recording is not whole then.
    pub fn refill(&mut self) -> Result<Option<usize>, Failure>
        ensures read { AllTaken self.old.account → RightRead result self.new.account }
        ensures whole { AllTaken self.old.account → self.new.whole ≡ self.old.whole }
        ensures dropped { self.old.account.from < self.old.account.to → self.new.whole ≡ false }
    {
        let a = self.account;
        if a.from < a.to {
            self.whole = false;
        }
        self.account = a.passed(a.to.saturating_sub(a.from), a.held);
        self.read_on()
    }

    // Says so if nothing was there to read.
    pub fn say_if_empty(&self)
        ensures { result ≡ tt }
    {
        if self.account.bytes == 0 {
            self.terminal.say_bytes(self.name);
            self.terminal.say(": is empty\n");
        }
    }
}

impl Before {
    ghost use Rattle.std.specs.Prelude.{◌≡◌, ◌+◌, ◌%◌, ◌^◌};
    ghost use Rattle.reading.specs.Number.{frame_in};

    // The bytes held then.
    pub fn held(&self) -> &[u8]
        ensures { result.now ≡ frame_in self.now.held self.now.account.held }
    {
        crate::frame_of(&self.held, self.account.held)
    }

    // The place in the recording of the first of them: before it are the bytes in frames and the skipped ones.
    pub fn place(&self) -> u64
        ensures { result ≡ (self.now.account.framed + self.now.account.skipped) % 2 ^ 64 }
    {
        self.account.framed.wrapping_add(self.account.skipped)
    }
}

// The bytes from one place to another.
fn part(bytes: &[u8], from: usize, to: usize) -> &[u8]
    requires { (from ≤ to) × (to ≤ length bytes.now) }
    ensures { length result.now ≡ to - from }
{
    &bytes[from..to]
}
