// What the arguments ask for, and what is said to the user.
use reading::arguments::{Kind, Word};
use reading::{Mode, arguments, asked};
use std::env::Env;

// How a recording is shown, and which frames are looked for.
#[derive(Clone, Copy)]
pub struct Ways {
    pub quiet: bool,
    pub mode: Mode,
}

// What all the arguments ask for: what the words ask of any program, and the ways.
#[derive(Clone, Copy)]
pub struct Asked {
    pub words: asked::Asked,
    pub ways: Ways,
}

pub fn all(env: &impl Env) -> Asked {
    let mut asked = Asked {
        words: asked::Asked::nothing(),
        ways: Ways {
            quiet: false,
            mode: Mode::Rtcm,
        },
    };
    for i in 1..arguments::count(env) {
        asked = with(asked, Word::or_empty(env, i).bytes(), i);
    }
    asked
}

// What is asked for with argument i.
fn with(asked: Asked, word: &[u8], i: usize) -> Asked {
    match kind_of(word, i, asked.words.rest) {
        Kind::Own => Asked {
            ways: ways_with(asked.ways, word),
            ..asked
        },
        kind => Asked {
            words: asked.words.noted(kind, i),
            ..asked
        },
    }
}

// The ways, once one of the program's own options is heeded.
fn ways_with(ways: Ways, word: &[u8]) -> Ways {
    match word {
        b"--ubx" => Ways {
            mode: Mode::RtcmAndUbx,
            ..ways
        },
        _ => Ways {
            quiet: true,
            ..ways
        },
    }
}

// What the word of argument i is. The program's own options are --quiet and --ubx.
pub fn kind_of(word: &[u8], i: usize, rest: Option<usize>) -> Kind {
    if asked::is_behind(i, rest) {
        return arguments::operand_of(word);
    }
    match word {
        b"--ubx" => Kind::Own,
        _ => arguments::kind_of(word, b"--quiet"),
    }
}

pub const HELP: &str = "rtcm_scan [--quiet] [--ubx] [--] FILE..

Shows the RTCM 3 frames of each file (- is standard input): a row for each, with its place,
its length, its kind and its message number (- if it has none), and a closing table, which
accounts for every byte: in frames, skipped, or held because a frame may begin there. Skipped
bytes are counted by reason: not D3, or a D3 whose checksum is wrong. A row is shown when its
frame has arrived.

  --quiet      the closing tables alone
  --ubx        UBX frames too; their message is class and id in hexadecimal, and a B5 that
               starts no good frame is a reason of its own
  --           each word behind it names a file
  --version    the version
  -h, --help   this text

The exit status is always 0. If something failed, the last line on standard error is
\"rtcm_scan: failed\".
";
