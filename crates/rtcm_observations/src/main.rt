// Shows the observations of recordings: each message 1001 as a table.
#![tactic(auto)]

mod table;

use frames::frame;
use printing::{Output, Terminal};
use reading::{Failure, Mode, Program, Recording, Step, Visit, asked};
use std::env::Env;
use std::fs::{File, Files};
use table::Tally;

const HELP: &str = "rtcm_observations [--] FILE..

Shows the RTCM 3 messages 1001 (GPS L1 observations) of each file (- is standard input): a table for
each message, with the raw numbers and the metres that they stand for. A table is shown when its
frame has arrived.

  --           each word behind it names a file
  --version    the version
  -h, --help   this text

The exit status is always 0. If something failed, the last line on standard error is
\"rtcm_observations: failed\".
";

fn main(rt: HostRuntime) {
    let program = Program::new("rtcm_observations", rt.stdin(), rt.stdout(), rt.stderr());
    program.end(run(&rt, &program));
}

// Does what the arguments ask.
fn run(rt: &(impl Env + Files<File = File>), program: &Program) -> Result<(), Failure> {
    let asked = asked::all(rt);
    if let Some(told) = program.about(asked, HELP) {
        return told;
    }
    if let Some(i) = asked.unknown {
        return Err(program.unknown(rt, i));
    }
    if asked.first.is_none() {
        return Err(program.no_file());
    }
    let mut tables = Tables {
        out: program.output(),
    };
    program.each(rt, asked.rest, Mode::Rtcm, &mut tables)
}

// Shows the tables of each recording.
#[derive(Drop)]
struct Tables {
    out: Output<Terminal>,
}

impl Visit for Tables {
    // Writes what stands behind the last message too.
    fn visit(&mut self, recording: &mut Recording) -> Result<(), Failure> {
        let mut tally = Tally::none();
        let end = show(recording, &mut tally, &mut self.out);
        if let Err(Failure::Unwritten) = end {
            return end;
        }
        table::closing(&mut self.out, recording.account(), tally);
        self.out.flush()?;
        end
    }
}

// Goes through the frames; the table of a message is written when its frame has arrived. A recording in which nothing was is
// named on standard error.
fn show(
    recording: &mut Recording,
    tally: &mut Tally,
    out: &mut Output<Terminal>,
) -> Result<(), Failure> {
    for _ in 0..u64::MAX {
        let is_first = recording.account().bytes == 0;
        match recording.next()? {
            Step::Frame(found) => {
                show_frame(out, recording.frame(), found.place, tally);
                out.flush()?;
            }
            Step::Piece => {
                if is_first {
                    table::opening(out, recording.name());
                }
            }
            Step::End => {
                recording.say_if_empty();
                return Ok(());
            }
        }
    }
    Ok(())
}

// Shows the frame, if its message is 1001.
fn show_frame(out: &mut Output<Terminal>, bytes: &[u8], place: u64, tally: &mut Tally) {
    if reading::number_of(bytes) == Some(1001) {
        table::message(out, frame::data_of(bytes), place, tally);
    }
}
