// What the arguments ask for, and what is said to the user.
use reading::arguments::{Kind, Word};
use reading::{Failure, Program, arguments, asked};
use std::env::Env;

// What all the arguments ask for: what the words ask of any program, whether only the closing frames are written, the place of
// the list's name, and that of a `--list` whose name is the next word.
#[derive(Clone, Copy)]
pub struct Asked {
    pub words: asked::Asked,
    pub salvaged: bool,
    pub list: Option<usize>,
    unnamed: Option<usize>,
}

pub fn all(env: &impl Env) -> Asked {
    let mut asked = Asked {
        words: asked::Asked::nothing(),
        salvaged: false,
        list: None,
        unnamed: None,
    };
    for i in 1..arguments::count(env) {
        asked = asked.with(Word::or_empty(env, i).bytes(), i);
    }
    asked
}

impl Asked {
    // The place of the first option that is not known, or else of one that has no name behind it.
    pub fn wrong(self) -> Option<usize> {
        self.words.unknown.or(self.unnamed)
    }

    // What is asked for with the word of argument i: behind `--list` it is the list's name, whatever it is.
    fn with(self, word: &[u8], i: usize) -> Asked {
        if self.unnamed.is_some() {
            return Asked {
                list: Some(i),
                unnamed: None,
                ..self
            };
        }
        match self.kind_of(word, i) {
            Kind::Own => self.with_own(word, i),
            kind => Asked {
                words: self.words.noted(kind, i),
                ..self
            },
        }
    }

    // What the word of argument i is. The program's own options are --salvaged and --list.
    fn kind_of(self, word: &[u8], i: usize) -> Kind {
        if asked::is_behind(i, self.words.rest) {
            return arguments::operand_of(word);
        }
        match word {
            b"--list" => Kind::Own,
            _ => arguments::kind_of(word, b"--salvaged"),
        }
    }

    // One of the program's own options is heeded.
    fn with_own(self, word: &[u8], i: usize) -> Asked {
        match word {
            b"--list" => Asked {
                unnamed: Some(i),
                ..self
            },
            _ => Asked {
                salvaged: true,
                ..self
            },
        }
    }
}

// Says what is wrong with the word of argument i, which is an option.
pub fn wrong(env: &impl Env, program: &Program, i: usize) -> Failure {
    if matches!(Word::or_empty(env, i).bytes(), b"--list") {
        program.say(": --list needs the name of a file\n");
        return Failure::Refused;
    }
    program.unknown(env, i)
}

pub const HELP: &str = "rtcm_salvage [--salvaged] [--list FILE] [--] FILE

Writes the good RTCM 3 frames of a recording (- is standard input), unchanged, to standard
output: those that a scanner hands out, and those that a false start near the end hides,
where each unfinished candidate is skipped by one byte. Every other byte is on the list:
its place, how many bytes from there on have the same reason, and the reason: not D3, a bad
check, or an unfinished candidate. Closing counts follow, with the sum that must come out.

  --salvaged   write only the frames that closing found
  --list FILE  the list and the counts go to the file, not to standard error
  --           the word behind it names a file
  --version    the version
  -h, --help   this text

The exit status is always 0. If something failed, the last line on standard error is
\"rtcm_salvage: failed\".
";
