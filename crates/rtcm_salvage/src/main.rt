// Writes the good frames of a recording, those that its end hides among them, and lists every other byte with the reason
// for which it is given up.
#![tactic(auto)]

mod list;
mod options;
mod salvage;

use list::Log;
use reading::arguments::Word;
use reading::{Failure, Program, arguments};
use std::env::Env;
use std::fs::{File, Files};
use std::io;

fn main(rt: HostRuntime) {
    let program = Program::new("rtcm_salvage", rt.stdin(), rt.stdout(), rt.stderr());
    program.end(run(&rt, &program));
}

// Does what the arguments ask.
fn run(rt: &(impl Env + Files<File = File>), program: &Program) -> Result<(), Failure> {
    let asked = options::all(rt);
    if let Some(told) = program.about(asked.words, options::HELP) {
        return told;
    }
    if let Some(i) = asked.wrong() {
        return Err(options::wrong(rt, program, i));
    }
    let named = asked.words.first.ok_or_else(|| program.no_file())?;
    if asked.words.second.is_some() {
        program.say(": name one recording\n");
        return Err(Failure::Refused);
    }
    let log = log(rt, program, asked.list)?;
    salvage_named(rt, program, named, log, asked.salvaged)
}

// Opens the list, which is standard error unless an argument names a file.
fn log(
    rt: &(impl Env + Files<File = File>),
    program: &Program,
    list: Option<usize>,
) -> Result<Log, Failure> {
    let Some(i) = list else {
        return Ok(Log::new(program.terminal(), None));
    };
    let word = Word::or_empty(rt, i);
    match created(rt, word.bytes()) {
        Ok(file) => Ok(Log::new(program.terminal(), Some(file))),
        Err(error) => {
            program.terminal().fail(word.bytes(), &error);
            Err(Failure::Unwritten)
        }
    }
}

// Creates the file, or empties it if it is there.
fn created(files: &impl Files<File = File>, path: &[u8]) -> io::Result<File> {
    File::create(files, arguments::text_of(path)?)
}

// Salvages the recording that argument i names.
fn salvage_named(
    rt: &(impl Env + Files<File = File>),
    program: &Program,
    i: usize,
    log: Log,
    salvaged: bool,
) -> Result<(), Failure> {
    let word = Word::or_empty(rt, i);
    let (source, name) = program.source(rt, word.bytes())?;
    salvage::run(program, source, name, log, salvaged)
}
