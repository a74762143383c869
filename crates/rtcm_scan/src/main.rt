// Shows the frames of recordings: a row for each, and an account of every byte, with why bytes were skipped.
#![tactic(auto)]

ghost use Rattle.std.specs.Prelude.{◌≡◌, false, IfOk};
ghost use Rattle.reading.specs.Account.{Right, AllTaken};

mod options;
mod table;

use options::Ways;
use printing::{Output, Terminal};
use reading::arguments::{Kind, Word};
use reading::skips::Skips;
use reading::{Before, Failure, Program, Recording, Visit};
use std::env::Env;
use std::fs::{File, Files};
use table::Numbers;

fn main(rt: HostRuntime) {
    let program = Program::new("rtcm_scan", rt.stdin(), rt.stdout(), rt.stderr());
    program.end(run(&rt, &program));
}

// Does what the arguments ask.
fn run(rt: &(impl Env + Files<File = File>), program: &Program) -> Result<(), Failure> {
    let asked = options::all(rt);
    if let Some(told) = program.about(asked.words, options::HELP) {
        return told;
    }
    if let Some(i) = asked.words.unknown {
        return Err(program.unknown(rt, i));
    }
    if asked.words.first.is_none() {
        return Err(program.no_file());
    }
    let mut rows = Rows {
        ways: asked.ways,
        out: program.output(),
    };
    program.each(rt, asked.words.rest, asked.ways.mode, &mut rows)
}

// Shows the rows of each recording, and its closing table.
#[derive(Drop)]
struct Rows {
    ways: Ways,
    out: Output<Terminal>,
}

impl Visit for Rows {
    fn argument(
        &mut self,
        program: &Program,
        env: &impl Env,
        i: usize,
        rest: Option<usize>,
    ) -> Result<(Word, Kind), Failure> {
        let word = program.word(env, i)?;
        let kind = options::kind_of(word.bytes(), i, rest);
        Ok((word, kind))
    }

    fn visit(&mut self, recording: &mut Recording) -> Result<(), Failure> {
        let mut skips = Skips::none();
        let mut numbers = Numbers::none();
        let end = scan(
            recording,
            self.ways,
            &mut skips,
            &mut numbers,
            &mut self.out,
        );
        if let Err(Failure::Unwritten) = end {
            return end;
        }
        let account = recording.account();
        if account.bytes != 0 {
            table::closing(&mut self.out, account, skips, &numbers);
        }
        self.out.flush()?;
        end
    }
}

// Goes through the frames, each row being written when its frame has arrived. The account at the end is right, all is taken
// then, and the recording is as whole as it was.
fn scan(
    recording: &mut Recording,
    ways: Ways,
    skips: &mut Skips,
    numbers: &mut Numbers,
    out: &mut Output<Terminal>,
) -> Result<(), Failure>
    ensures right { Right recording.new.account }
    ensures taken { IfOk result (λ u. AllTaken recording.new.account) }
    ensures whole { recording.new.whole ≡ recording.old.whole }
{
    let mut before = recording.before();
    for _ in 0..u64::MAX {
        recording.note(&mut before);
        let found = recording.take()?;
        *skips = skipped(*skips, recording, &before);
        match found {
            Some(found) => {
                table::frame(out, ways, found, recording.frame(), numbers);
                if !ways.quiet {
                    out.flush()?;
                }
            }
            None => {
                if !is_read_on(recording, ways, out)? {
                    return Ok(());
                }
            }
        }
    }
    Err(Failure::Unread)
}

// Reads the next piece, once all of the one before is taken, and answers whether there is one. Before the first one stands the
// head of the table.
fn is_read_on(
    recording: &mut Recording,
    ways: Ways,
    out: &mut Output<Terminal>,
) -> Result<bool, Failure>
    requires { AllTaken recording.old.account }
    ensures taken { IfOk result (λ is_piece. is_piece ≡ false → AllTaken recording.new.account) }
    ensures whole { recording.new.whole ≡ recording.old.whole }
{
    let is_first = recording.account().bytes == 0;
    if recording.refill()?.is_none() {
        recording.say_if_empty();
        return Ok(false);
    }
    if is_first {
        table::opening(out, recording.name(), ways);
    }
    Ok(true)
}

// Counts what a step skipped.
fn skipped(counted: Skips, recording: &Recording, before: &Before) -> Skips {
    let n = recording.skipped_since(before) as usize;
    let (held, piece) = recording.bytes_since(before, n);
    with_bytes(with_bytes(counted, held), piece)
}

fn with_bytes(counted: Skips, bytes: &[u8]) -> Skips {
    let mut skips = counted;
    for byte in bytes {
        skips = skips.count(*byte);
    }
    skips
}
