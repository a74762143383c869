// What a recording is read from.
ghost use Rattle.std.specs.Io.{ReadsAtMost};

use std::fs::File;
use std::io;
use std::io::Read;
use std::rt::Stdin;

// Standard input, or an open file, which is closed where the source is dropped.
#[derive(Drop)]
pub enum Source {
    Input(Stdin),
    File(File),
}

impl Source {
    // Reads once: what is there, as much of it as the area takes. 0 bytes are the end.
    pub fn read(&mut self, area: &mut [u8]) -> io::Result<usize>
        ensures { ReadsAtMost result area.new }
    {
        match self {
            Source::Input(input) => input.read(area),
            Source::File(file) => file.read(area),
        }
    }
}
