// A file, or standard input, that is read whole into an area of 65,536 bytes.
ghost use Rattle.std.specs.Prelude.{◌≤◌};
ghost use Rattle.reading.specs.Load.{Fits};

use crate::{Failure, Program, Source};
use std::env::Env;
use std::fs::{File, Files};

// Reads what argument i names, and answers how many bytes stand at the front of the area then. Where it cannot be read, or
// is longer than the area, that is said.
pub fn load(
    rt: &(impl Env + Files<File = File>),
    program: &Program,
    i: usize,
    area: &mut [u8; 65536],
) -> Result<usize, Failure>
    ensures { Fits result }
{
    let word = program.word(rt, i)?;
    let (source, name) = program.source(rt, word.bytes())?;
    load_open(program, source, name, area)
}

// Reads until the area is full or nothing more comes, and once more, which tells the end from a failure and from a longer
// file.
fn load_open(
    program: &Program,
    mut source: Source,
    name: &[u8],
    area: &mut [u8; 65536],
) -> Result<usize, Failure>
    ensures { Fits result }
{
    let n = read_full(&mut source, area);
    let mut more = [0u8; 4096];
    match source.read(&mut more) {
        Ok(0) => return Ok(n),
        Ok(_) => {
            program.terminal().say_bytes(name);
            program
                .terminal()
                .say(": is longer than 65,536 bytes, or came with a pause\n");
        }
        Err(error) => program.terminal().fail(name, &error),
    }
    Err(Failure::Unread)
}

// Reads until the area is full, the input ends or a read fails, and answers how many bytes came.
fn read_full(source: &mut Source, area: &mut [u8; 65536]) -> usize
    ensures { result ≤ 65536 }
{
    let mut done: usize = 0;
    // A step goes as far as a read does: no `for` goes that way.
    while done < 65536 {
        let more = source.read(&mut area[done..]).unwrap_or(0);
        if more == 0 {
            return done;
        }
        done += more;
    }
    done
}
