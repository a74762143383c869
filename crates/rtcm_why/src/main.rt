// Says what became of one byte of a recording: in which frame it is, why it was skipped, or from where on it is held.
#![tactic(auto)]

use frames::fate;
use frames::fate::Fate;
use printing::{Output, Terminal};
use reading::arguments::Word;
use reading::{Failure, Program, asked, load};
use std::env::Env;
use std::fs::{File, Files};

const HELP: &str = "rtcm_why [--] FILE PLACE

Says what became of the byte at the place, counted from 0, of a recording of at most 65,536 bytes (- is
standard input): in which frame it is, why it was skipped, or from where on it is held because a frame
may begin there.

  --           each word behind it names a file or a place
  --version    the version
  -h, --help   this text

The exit status is always 0. If something failed, the last line on standard error is
\"rtcm_why: failed\".
";

fn main(rt: HostRuntime) {
    let program = Program::new("rtcm_why", rt.stdin(), rt.stdout(), rt.stderr());
    program.end(run(&rt, &program));
}

// Does what the arguments ask.
fn run(rt: &(impl Env + Files<File = File>), program: &Program) -> Result<(), Failure> {
    let asked = asked::all(rt);
    if let Some(told) = program.about(asked, HELP) {
        return told;
    }
    if let Some(i) = asked.unknown {
        return Err(program.unknown(rt, i));
    }
    match (asked.first, asked.second, asked.third) {
        (Some(file), Some(word), None) => answer(rt, program, file, word),
        _ => Err(misnamed(program)),
    }
}

fn misnamed(program: &Program) -> Failure {
    program.misnamed("a recording and a place in it, counted from 0")
}

// Says what became of the byte at the place that one argument names, in the file that another names.
fn answer(
    rt: &(impl Env + Files<File = File>),
    program: &Program,
    file: usize,
    word: usize,
) -> Result<(), Failure> {
    let Some(place) = digits(Word::or_empty(rt, word).bytes()) else {
        return Err(misnamed(program));
    };
    let mut recording = [0u8; 65536];
    let n = load::load(rt, program, file, &mut recording)?;
    match fate::of(&recording[..n], place) {
        Ok(fate) => show(program, fate),
        Err(_) => Err(refused(program)),
    }
}

// The number that the digits make; none if the word is no number. One of more than six digits lies past every recording, as
// 65,536 does.
fn digits(word: &[u8]) -> Option<usize> {
    if word.is_empty() {
        return None;
    }
    let mut place: usize = 0;
    for d in word {
        if !d.is_ascii_digit() {
            return None;
        }
        if 99_999 < place {
            return Some(65536);
        }
        place = place * 10 + usize::from(*d - b'0');
    }
    Some(place)
}

// Writes what became of the byte.
fn show(program: &Program, fate: Fate) -> Result<(), Failure> {
    let mut out = program.output();
    match fate {
        Fate::InFrame { place, length } => {
            out.phrase("in the frame at ", place as u64, 0, ", ");
            out.phrase("which has ", length as u64, 0, " bytes\n");
        }
        Fate::NotD3(place) => out.phrase("skipped at ", place as u64, 0, ": it is not D3\n"),
        Fate::BadCheck {
            place,
            sent,
            computed,
        } => bad_check(&mut out, place as u64, u64::from(sent), u64::from(computed)),
        Fate::Held { place, length } => {
            out.phrase(
                "held from the unfinished candidate at ",
                place as u64,
                0,
                " on, ",
            );
            out.phrase("", length as u64, 0, " bytes to the end\n");
        }
    }
    out.flush()?;
    Ok(())
}

fn bad_check(out: &mut Output<Terminal>, place: u64, sent: u64, computed: u64) {
    out.phrase("skipped at ", place, 0, ": a D3 whose checksum is wrong, ");
    out.hex(sent, 6);
    out.text(" sent and ");
    out.hex(computed, 6);
    out.text(" computed\n");
}

fn refused(program: &Program) -> Failure {
    program.terminal().say("refused with Size: the place is at or past the end of the recording\n");
    Failure::Refused
}
