// Compares a received frame with the sent one: shows the bytes from the first to the last that differs.
#![tactic(auto)]

use damage::compare::{compare, differing};
use printing::{Output, Terminal, Unwritten};
use reading::{Failure, Program, asked, load};
use std::env::Env;
use std::fs::{File, Files};

const HELP: &str = "rtcm_compare [--] SENT RECEIVED

Compares two files of the same length, at most 65,536 bytes (- is standard input), and shows the bytes
from the first to the last that differs, as they were sent and as they were received.

  --           each word behind it names a file
  --version    the version
  -h, --help   this text

The exit status is always 0. If something failed, the last line on standard error is
\"rtcm_compare: failed\".
";

fn main(rt: HostRuntime) {
    let program = Program::new("rtcm_compare", rt.stdin(), rt.stdout(), rt.stderr());
    program.end(run(&rt, &program));
}

// Does what the arguments ask.
fn run(rt: &(impl Env + Files<File = File>), program: &Program) -> Result<(), Failure> {
    let asked = asked::all(rt);
    if let Some(told) = program.about(asked, HELP) {
        return told;
    }
    if let Some(i) = asked.unknown {
        return Err(program.unknown(rt, i));
    }
    match (asked.first, asked.second, asked.third) {
        (Some(sent), Some(received), None) => compare_files(rt, program, sent, received),
        _ => Err(program.misnamed("what was sent and what was received")),
    }
}

// Compares the files that two arguments name.
fn compare_files(
    rt: &(impl Env + Files<File = File>),
    program: &Program,
    first: usize,
    second: usize,
) -> Result<(), Failure> {
    let mut sent = [0u8; 65536];
    let mut received = [0u8; 65536];
    let n = load::load(rt, program, first, &mut sent)?;
    let m = load::load(rt, program, second, &mut received)?;
    show(program, &sent[..n], &received[..m])
}

// Writes where they differ.
fn show(program: &Program, sent: &[u8], received: &[u8]) -> Result<(), Failure> {
    let run = compare(sent, received).map_err(|_| refused(program))?;
    let all = sent.len() as u64;
    let mut out = program.output();
    if run.count == 0 {
        out.phrase("equal, ", all, 0, " bytes\n");
        out.flush()?;
        return Ok(());
    }
    out.phrase("from byte ", run.start as u64, 0, " on, ");
    out.phrase("", run.count as u64, 0, " of ");
    out.phrase("", all, 0, " bytes\n");
    row(&mut out, "  sent    ", differing(received, sent))?;
    row(&mut out, "  received", differing(sent, received))?;
    Ok(())
}

fn refused(program: &Program) -> Failure {
    program.terminal().say(
        "refused with Size: what was sent and what was received are not of the same length\n",
    );
    Failure::Refused
}

// Writes a line of bytes in hexadecimal digits. Where what waits is near the end of its area, it is written in between.
fn row(out: &mut Output<Terminal>, words: &str, part: &[u8]) -> Result<(), Unwritten> {
    out.text(words);
    for byte in part {
        out.text(" ");
        out.hex(u64::from(*byte), 2);
        if 65_000 <= out.waiting() {
            out.flush()?;
        }
    }
    out.text("\n");
    out.flush()
}
