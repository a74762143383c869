// How far a recording is read, and what a step makes of that.
ghost use Rattle.std.specs.Prelude.{◌≡◌, ◌+◌, ◌-◌, ◌≤◌};
ghost use Rattle.frames.specs.Answers.{known};
ghost use Rattle.reading.specs.Account.{Right, AllTaken, RightFrame, mode_number};

use frames::scanner;
use frames::scanner::Scanner;

// Which frames are looked for.
#[derive(Clone, Copy, Debug, PartialEq, Eq)]
pub enum Mode {
    Rtcm,
    RtcmAndUbx,
}

impl Mode {
    // The number by which a scanner, which C sees, is opened for it.
    pub fn number(self) -> u32
        ensures { result ≡ mode_number self }
    {
        match self {
            Mode::Rtcm => 0,
            Mode::RtcmAndUbx => 1,
        }
    }
}

// Each byte is in a frame, skipped, held, or in the part of the piece from `from` to `to`, which is not taken yet. Sums go
// round at 2^64.
#[derive(Clone, Copy)]
pub struct Account {
    pub bytes: u64,
    pub frames: u64,
    pub framed: u64,
    pub skipped: u64,
    pub held: usize,
    pub from: usize,
    pub to: usize,
    pub mode: Mode,
}

// A frame that was found, with its place in the recording and its kind.
#[derive(Clone, Copy)]
pub struct Found {
    pub place: u64,
    pub length: usize,
    pub kind: scanner::Kind,
}

impl Account {
    // The account before anything is read in a mode.
    pub fn start(mode: Mode) -> Account
        ensures { AllTaken result × (result.mode ≡ mode) }
    {
        Account {
            bytes: 0,
            frames: 0,
            framed: 0,
            skipped: 0,
            held: 0,
            from: 0,
            to: 0,
            mode,
        }
    }

    // A scanner that holds so many bytes. The account counts places itself, past 2^48 too, so that the scanner counts from
    // the first byte held.
    pub(crate) fn scanner(self) -> Scanner
        ensures { known result ≡ record { count = self.held; taken = self.held; mode = mode_number self.mode } }
    {
        Scanner {
            count: self.held,
            taken: self.held as u64,
            mode: self.mode.number(),
        }
    }

    // A frame is handed out. Before it are the bytes in frames and the skipped ones.
    pub(crate) fn framed(
        self,
        length: usize,
        taken: usize,
        skipped: usize,
        held: usize,
        kind: scanner::Kind,
    ) -> (Found, Account)
        ensures { Right self → taken ≤ self.to - self.from → self.held + taken ≡ skipped + length + held → held ≤ 1029 → RightFrame result.0 result.1 }
    {
        let all = self.skipped.wrapping_add(skipped as u64);
        let found = Found {
            place: self.framed.wrapping_add(all),
            length,
            kind,
        };
        let account = Account {
            frames: self.frames.wrapping_add(1),
            framed: self.framed.wrapping_add(length as u64),
            skipped: all,
            held,
            from: self.from.wrapping_add(taken),
            ..self
        };
        (found, account)
    }

    // The whole piece is taken.
    pub(crate) fn passed(self, skipped: usize, held: usize) -> Account
        ensures { Right self → self.held + (self.to - self.from) ≡ skipped + held → held ≤ 1029 → AllTaken result }
    {
        Account {
            skipped: self.skipped.wrapping_add(skipped as u64),
            held,
            from: 0,
            to: 0,
            ..self
        }
    }

    // All that was held is given up.
    pub(crate) fn emptied(self, skipped: usize) -> Account
        ensures { Right self → self.held ≡ skipped → Right result × (result.held ≡ 0) }
    {
        Account {
            skipped: self.skipped.wrapping_add(skipped as u64),
            held: 0,
            ..self
        }
    }

    // A piece of n bytes is read, once the one before is taken.
    pub(crate) fn grown(self, n: usize) -> Account
        ensures { AllTaken self → n ≤ 65536 → Right result × (result.from ≡ 0) × (result.to ≡ n) }
    {
        Account {
            bytes: self.bytes.wrapping_add(n as u64),
            from: 0,
            to: n,
            ..self
        }
    }
}
