// The latest bias of each provider, solution, satellite and signal: what `--latest` shows.
use crate::found::{Lists, System};
use crate::options::{Argument, Asked};
use crate::{found, table};
use cache::cache::Key;
use frames::frame;
use printing::{Amount, Output, Terminal};
use reading::arguments::{Kind, Word};
use reading::{Failure, Mode, Program, Recording, Step, Visit};
use std::env::Env;
use std::fs::{File, Files};
use whole::answer::Header1059;

// Reads what the arguments name, one after another, and shows the cache.
pub fn all(
    rt: &(impl Env + Files<File = File>),
    program: &Program,
    asked: Asked,
) -> Result<(), Failure> {
    let mut latest = Latest {
        entries: [[0; 7]; 512],
        sum: Sum::none(),
    };
    let end = program.each(rt, asked.words.rest, Mode::Rtcm, &mut latest);
    let mut out = program.output();
    show(&mut out, &latest.entries, asked.settings.edition)?;
    latest.sum.show(&mut out);
    out.flush()?;
    end
}

// How many messages 1059 were read and how many refused, and how many of their biases had no room. Sums go round at 2^64.
#[derive(Clone, Copy)]
struct Sum {
    read: u64,
    refused: u64,
    lost: u64,
}

impl Sum {
    fn none() -> Sum {
        Sum {
            read: 0,
            refused: 0,
            lost: 0,
        }
    }

    // One more message is read, of which so many biases had no room.
    fn read(&mut self, lost: u64) {
        self.read = self.read.wrapping_add(1);
        self.lost = self.lost.wrapping_add(lost);
    }

    // One more is refused.
    fn refuse(&mut self) {
        self.refused = self.refused.wrapping_add(1);
    }

    fn show(self, out: &mut Output<Terminal>) {
        out.phrase("", self.read, 0, " messages 1059 read, ");
        out.phrase("", self.refused, 0, " refused, ");
        out.phrase("", self.lost, 0, " biases without room\n");
    }
}

// The cache, and what went into it.
#[derive(Drop)]
struct Latest {
    entries: [[u16; 7]; 512],
    sum: Sum,
}

impl Visit for Latest {
    fn argument(
        &mut self,
        _program: &Program,
        env: &impl Env,
        i: usize,
        rest: Option<usize>,
    ) -> Result<(Word, Kind), Failure> {
        let kind = Argument::of(env, i, rest).kind();
        Ok((Word::or_empty(env, i), kind))
    }

    // Goes through the frames. A recording in which nothing was is named on standard error.
    fn visit(&mut self, recording: &mut Recording) -> Result<(), Failure> {
        for _ in 0..u64::MAX {
            match recording.next()? {
                Step::Frame(_) => self.keep(recording.frame()),
                Step::Piece => {}
                Step::End => {
                    recording.say_if_empty();
                    return Ok(());
                }
            }
        }
        Ok(())
    }
}

impl Latest {
    // Keeps the biases of the frame, if it is a whole message 1059.
    fn keep(&mut self, frame: &[u8]) {
        if System::of_frame(frame) != Some(System::Gps) {
            return;
        }
        let mut lists = Lists::new();
        match lists.whole_1059(frame::data_of(frame)) {
            Ok(message) => {
                let lost = store(&mut self.entries, message.header, &lists, message.count);
                self.sum.read(lost);
            }
            Err(_) => self.sum.refuse(),
        }
    }
}

// Stores the first `count` records of the message, and answers how many had no room.
fn store(entries: &mut [[u16; 7]; 512], header: Header1059, lists: &Lists, count: usize) -> u64 {
    let mut lost: u64 = 0;
    let records = lists
        .satellites
        .iter()
        .zip(&lists.signals)
        .zip(&lists.biases);
    for ((satellite, signal), bias) in records.take(count) {
        let key = Key {
            provider: header.provider,
            solution: header.solution,
            satellite: u32::from(*satellite),
            signal: u32::from(*signal),
        };
        let bias = i32::from(*bias).cast_unsigned();
        if cache::cache::store(entries, key, header.iod, bias).is_err() {
            lost = lost.wrapping_add(1);
        }
    }
    lost
}

// The key of an entry, if it is in use.
fn key_of(entry: &[u16; 7]) -> Option<Key> {
    match *entry {
        [0, ..] => None,
        [_, provider, solution, satellite, signal, ..] => Some(Key {
            provider: u32::from(provider),
            solution: u32::from(solution),
            satellite: u32::from(satellite),
            signal: u32::from(signal),
        }),
    }
}

// What is shown together.
#[derive(Clone, Copy, PartialEq, Eq)]
struct Group {
    provider: u32,
    solution: u32,
}

impl Group {
    fn of(key: Key) -> Group {
        Group {
            provider: key.provider,
            solution: key.solution,
        }
    }

    // Whether the entry is in use, and of the group.
    fn has(self, entry: &[u16; 7]) -> bool {
        key_of(entry).map(Group::of) == Some(self)
    }
}

// Shows the entries, provider by provider, each by solution. A group begins at the first entry of its provider and solution.
fn show(
    out: &mut Output<Terminal>,
    entries: &[[u16; 7]; 512],
    edition: u32,
) -> Result<(), Failure> {
    for (i, entry) in entries.iter().enumerate() {
        if let Some(group) = key_of(entry).map(Group::of) {
            if !entries.iter().take(i).any(|e| group.has(e)) {
                show_group(out, group, entries, edition);
                out.flush()?;
            }
        }
    }
    Ok(())
}

// The provider and the solution, and the rows of all entries that have them.
fn show_group(out: &mut Output<Terminal>, group: Group, entries: &[[u16; 7]; 512], edition: u32) {
    out.phrase("provider ", u64::from(group.provider), 0, ", solution ");
    out.phrase("", u64::from(group.solution), 0, "\n");
    out.text("    satellite  signal       raw    metres   IOD\n");
    for entry in entries {
        match key_of(entry) {
            Some(key) if group.has(entry) => row(out, key, entries, edition),
            _ => {}
        }
    }
}

// The row of a key: what a lookup of it finds. A raw bias of message 1059 is in hundredths of a metre.
fn row(out: &mut Output<Terminal>, key: Key, entries: &[[u16; 7]; 512], edition: u32) {
    let Ok(value) = cache::cache::lookup(entries, key) else {
        return;
    };
    let bias = Amount::from(i64::from(value.bias.cast_signed()));
    out.unsigned(u64::from(key.satellite), 13);
    let signal = found::signal_of_1059(edition, key.signal);
    table::signal(out, signal, u64::from(key.signal));
    out.signed(bias, 10);
    out.hundredths(bias, 10);
    out.unsigned(u64::from(value.iod), 6);
    out.text("\n");
}
