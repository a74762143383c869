// The list of what is given up: a row for each run of bytes with one reason, and the closing counts. It goes to standard
// error or to a file.
use closing::reason::{Ruled, Skip};
use printing::{Output, Sink, Terminal, Unwritten};
use reading::Account;
use std::fs::File;
use std::io::{Print, Write};

// Where the list goes: to the file, if there is one, else to standard error.
#[derive(Drop)]
pub struct Log {
    terminal: Terminal,
    file: Option<File>,
}

impl Log {
    pub fn new(terminal: Terminal, file: Option<File>) -> Log {
        Log { terminal, file }
    }
}

impl Sink for Log {
    fn put(&mut self, words: &[u8]) -> Result<(), Unwritten> {
        let written = match &mut self.file {
            Some(file) => file.write_all(words),
            None => Print::write_all(&self.terminal.errors(), words),
        };
        match written {
            Ok(()) => Ok(()),
            Err(error) => {
                self.terminal.fail(b"list", &error);
                Err(Unwritten)
            }
        }
    }
}

// Why a byte is given up.
#[derive(Clone, Copy, PartialEq, Eq)]
pub enum Why {
    NotD3,
    BadCheck,
    Unfinished,
}

impl Why {
    fn name(self) -> &'static str {
        match self {
            Why::NotD3 => "  not D3\n",
            Why::BadCheck => "  bad check\n",
            Why::Unfinished => "  unfinished candidate\n",
        }
    }
}

// Why a byte was skipped while feeding.
impl From<Skip> for Why {
    fn from(skip: Skip) -> Why {
        match skip {
            Skip::NotD3 => Why::NotD3,
            Skip::BadCheck => Why::BadCheck,
        }
    }
}

// Why a byte is given up while closing.
impl From<Ruled> for Why {
    fn from(ruled: Ruled) -> Why {
        match ruled {
            Ruled::BadCheck { .. } => Why::BadCheck,
            Ruled::Unfinished => Why::Unfinished,
            _ => Why::NotD3,
        }
    }
}

// A run of bytes with one reason.
#[derive(Clone, Copy)]
struct Run {
    place: u64,
    bytes: u64,
    why: Why,
}

impl Run {
    // Whether a byte at the place, with the reason, lengthens it.
    fn is_lengthened_by(self, place: u64, why: Why) -> bool {
        self.why == why && self.place.wrapping_add(self.bytes) == place
    }
}

// How many bytes have each reason. Sums go round at 2^64.
#[derive(Clone, Copy)]
struct Counts {
    not_d3: u64,
    bad_check: u64,
    unfinished: u64,
}

impl Counts {
    fn none() -> Counts {
        Counts {
            not_d3: 0,
            bad_check: 0,
            unfinished: 0,
        }
    }

    // One more byte.
    fn count(self, why: Why) -> Counts {
        match why {
            Why::NotD3 => Counts {
                not_d3: self.not_d3.wrapping_add(1),
                ..self
            },
            Why::BadCheck => Counts {
                bad_check: self.bad_check.wrapping_add(1),
                ..self
            },
            Why::Unfinished => Counts {
                unfinished: self.unfinished.wrapping_add(1),
                ..self
            },
        }
    }

    fn sum(self) -> u64 {
        self.not_d3
            .wrapping_add(self.bad_check)
            .wrapping_add(self.unfinished)
    }
}

// The list: the run that is not written yet, how many bytes have each reason, and whether all rows could be written.
#[derive(Drop)]
pub struct List {
    out: Output<Log>,
    run: Option<Run>,
    counts: Counts,
    written: Result<(), Unwritten>,
}

impl List {
    // Before the first row stand the name, and the heads of the columns.
    pub fn new(log: Log, name: &[u8]) -> List {
        let mut out = Output::new(log);
        out.bytes(name);
        out.text("\n       place       bytes  given up as\n");
        List {
            out,
            run: None,
            counts: Counts::none(),
            written: Ok(()),
        }
    }

    // One more byte: it lengthens the run, or the run is written and another begins.
    pub fn add(&mut self, place: u64, why: Why) {
        self.counts = self.counts.count(why);
        let run = match self.run {
            Some(run) if run.is_lengthened_by(place, why) => Run {
                bytes: run.bytes.wrapping_add(1),
                ..run
            },
            _ => {
                self.end_run();
                Run {
                    place,
                    bytes: 1,
                    why,
                }
            }
        };
        self.run = Some(run);
    }

    // Writes the run, if there is one. Where the list cannot be written, the salvage goes on all the same.
    fn end_run(&mut self) {
        let Some(run) = self.run else {
            return;
        };
        self.run = None;
        self.out.unsigned(run.place, 12);
        self.out.unsigned(run.bytes, 12);
        self.out.text(run.why.name());
        if 60_000 < self.out.waiting() {
            let flushed = self.out.flush();
            self.written = self.written.and(flushed);
        }
    }

    // Writes the last run and the closing counts, where `fed` is the account before closing and `account` the one behind it.
    // Answers whether all of the list could be written.
    pub fn end(&mut self, fed: Account, account: Account) -> Result<(), Unwritten> {
        self.end_run();
        self.frames(fed, account);
        self.reasons(account);
        self.out.flush()?;
        self.written
    }

    fn frames(&mut self, fed: Account, account: Account) {
        self.line("  bytes           ", account.bytes);
        self.line("  frames fed      ", fed.frames);
        self.line("    bytes         ", fed.framed);
        let salvaged = account.frames.wrapping_sub(fed.frames);
        self.line("  frames salvaged ", salvaged);
        let bytes = account.framed.wrapping_sub(fed.framed);
        self.line("    bytes         ", bytes);
    }

    // How many bytes have which reason, and the sum of the bytes in frames and on the list, which comes out at the bytes read.
    fn reasons(&mut self, account: Account) {
        let counts = self.counts;
        self.line("  given up        ", account.skipped);
        self.line("    not D3        ", counts.not_d3);
        self.line("    bad check     ", counts.bad_check);
        self.line("    unfinished    ", counts.unfinished);
        let sum = account.framed.wrapping_add(counts.sum());
        let verdict = if sum == account.bytes {
            "  every byte is accounted for\n"
        } else {
            "  IS NOT THE BYTES READ\n"
        };
        self.out.phrase("  sum             ", sum, 12, verdict);
    }

    fn line(&mut self, name: &str, n: u64) {
        self.out.phrase(name, n, 12, "\n");
    }
}
