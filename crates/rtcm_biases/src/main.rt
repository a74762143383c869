// Shows the biases of recordings: each message 1059 and 1230 as a table.
#![tactic(auto)]

mod found;
mod latest;
mod options;
mod table;

use found::System;
use frames::frame;
use options::{Argument, Settings};
use printing::{Output, Terminal};
use reading::arguments::{Kind, Word};
use reading::{Failure, Mode, Program, Recording, Step, Visit};
use std::env::Env;
use std::fs::{File, Files};
use table::Tally;

fn main(rt: HostRuntime) {
    let program = Program::new("rtcm_biases", rt.stdin(), rt.stdout(), rt.stderr());
    program.end(run(&rt, &program));
}

// Does what the arguments ask.
fn run(rt: &(impl Env + Files<File = File>), program: &Program) -> Result<(), Failure> {
    let asked = options::all(rt);
    if let Some(told) = program.about(asked.words, options::HELP) {
        return told;
    }
    if let Some(i) = asked.words.unknown {
        return Err(options::wrong(rt, program, i, asked.words.rest));
    }
    if asked.words.first.is_none() {
        return Err(program.no_file());
    }
    if asked.latest {
        return latest::all(rt, program, asked);
    }
    let mut tables = Tables {
        out: program.output(),
        tally: Tally::none(),
        settings: Settings::usual(),
    };
    program.each(rt, asked.words.rest, Mode::Rtcm, &mut tables)
}

// Shows the tables of each recording, and counts its blocks. The settings are those that hold where it is named.
#[derive(Drop)]
struct Tables {
    out: Output<Terminal>,
    tally: Tally,
    settings: Settings,
}

impl Visit for Tables {
    fn argument(
        &mut self,
        _program: &Program,
        env: &impl Env,
        i: usize,
        rest: Option<usize>,
    ) -> Result<(Word, Kind), Failure> {
        let argument = Argument::of(env, i, rest);
        self.settings = self.settings.behind(argument);
        Ok((Word::or_empty(env, i), argument.kind()))
    }

    fn visit(&mut self, recording: &mut Recording) -> Result<(), Failure> {
        self.tally = Tally::none();
        let end = self.show(recording);
        if let Err(Failure::Unwritten) = end {
            return end;
        }
        table::closing(&mut self.out, recording.account(), self.tally);
        self.out.flush()?;
        end
    }
}

impl Tables {
    // Goes through the frames; the table of a block is written when its frame has arrived. A recording in which nothing was
    // is named on standard error.
    fn show(&mut self, recording: &mut Recording) -> Result<(), Failure> {
        for _ in 0..u64::MAX {
            let is_first = recording.account().bytes == 0;
            match recording.next()? {
                Step::Frame(found) => {
                    self.show_frame(recording.frame(), found.place);
                    self.out.flush()?;
                }
                Step::Piece => {
                    if is_first {
                        table::opening(&mut self.out, recording.name());
                    }
                }
                Step::End => {
                    recording.say_if_empty();
                    return Ok(());
                }
            }
        }
        Ok(())
    }

    // Shows the frame, if its message is 1059 or 1230.
    fn show_frame(&mut self, frame: &[u8], place: u64) {
        if let Some(system) = System::of_frame(frame) {
            let data = frame::data_of(frame);
            let answer = table::message(&mut self.out, system, place, data, self.settings);
            self.tally.count(answer);
        }
    }
}
