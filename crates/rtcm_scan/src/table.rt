// The rows and the closing table of one recording.
use crate::options::Ways;
use frames::scanner::Kind;
use printing::{Output, Terminal};
use reading::skips::Skips;
use reading::{Account, Found, Mode};

// How many frames have which message number, and how many have none. Sums go round at 2^64.
#[derive(Drop)]
pub struct Numbers {
    counts: [u64; 4096],
    without: u64,
}

impl Numbers {
    pub fn none() -> Numbers {
        Numbers {
            counts: [0; 4096],
            without: 0,
        }
    }

    // One more frame.
    fn count(&mut self, number: Option<u16>) {
        match number {
            Some(number) => {
                if let Some(count) = self.counts.get_mut(usize::from(number)) {
                    *count = count.wrapping_add(1);
                }
            }
            None => self.without = self.without.wrapping_add(1),
        }
    }
}

// Before the first piece: the name, and the heads of the columns.
pub fn opening(out: &mut Output<Terminal>, name: &[u8], ways: Ways) {
    out.bytes(name);
    out.text("\n");
    if !ways.quiet {
        out.text("       place  length  kind  message\n");
    }
}

// Counts the frame under its message number, if it is of RTCM, and adds its row.
pub fn frame(
    out: &mut Output<Terminal>,
    ways: Ways,
    found: Found,
    bytes: &[u8],
    numbers: &mut Numbers,
) {
    let number = reading::number_of(bytes);
    if let Kind::Rtcm = found.kind {
        numbers.count(number);
    }
    if ways.quiet {
        return;
    }
    out.unsigned(found.place, 12);
    out.unsigned(found.length as u64, 8);
    match found.kind {
        Kind::Rtcm => {
            out.text("  RTCM");
            message(out, number);
        }
        Kind::Ubx => ubx(out, bytes),
    }
    out.text("\n");
}

// The message of a UBX frame is its class and its id.
fn ubx(out: &mut Output<Terminal>, bytes: &[u8]) {
    if let [_, _, class, id, ..] = bytes {
        out.text("   UBX    ");
        out.hex(u64::from(*class), 2);
        out.text(" ");
        out.hex(u64::from(*id), 2);
    }
}

// A message number, or `-`.
fn message(out: &mut Output<Terminal>, number: Option<u16>) {
    match number {
        Some(number) => out.unsigned(u64::from(number), 9),
        None => out.text("        -"),
    }
}

// The closing table: the account, and the frames of each message number.
pub fn closing(out: &mut Output<Terminal>, account: Account, skips: Skips, numbers: &Numbers) {
    line(out, "  bytes           ", account.bytes);
    line(out, "  frames          ", account.frames);
    line(out, "  bytes in frames ", account.framed);
    line(out, "  skipped         ", account.skipped);
    reasons(out, account, skips);
    line(out, "  held            ", account.held as u64);
    sum(out, account);
    by_number(out, numbers);
    out.text("\n");
}

// How many bytes were skipped for which reason. To a scanner for RTCM alone a B5 is a byte that is not D3.
fn reasons(out: &mut Output<Terminal>, account: Account, skips: Skips) {
    if account.mode == Mode::Rtcm {
        line(
            out,
            "    not D3        ",
            skips.others.wrapping_add(skips.b5),
        );
        line(out, "    bad check     ", skips.d3);
        return;
    }
    line(out, "    not D3 or B5  ", skips.others);
    line(out, "    bad check     ", skips.d3);
    line(out, "    bad UBX       ", skips.b5);
}

fn line(out: &mut Output<Terminal>, name: &str, n: u64) {
    out.phrase(name, n, 12, "\n");
}

// The sum of the bytes in frames, skipped and held, which comes out at the bytes read.
fn sum(out: &mut Output<Terminal>, account: Account) {
    let sum = account
        .framed
        .wrapping_add(account.skipped)
        .wrapping_add(account.held as u64);
    let verdict = if sum == account.bytes {
        "  every byte is accounted for\n"
    } else {
        "  IS NOT THE BYTES READ\n"
    };
    out.phrase("  sum             ", sum, 12, verdict);
}

fn by_number(out: &mut Output<Terminal>, numbers: &Numbers) {
    for (number, n) in (0u16..).zip(&numbers.counts) {
        if *n != 0 {
            of_number(out, Some(number), *n);
        }
    }
    if numbers.without != 0 {
        of_number(out, None, numbers.without);
    }
}

fn of_number(out: &mut Output<Terminal>, number: Option<u16>, n: u64) {
    out.text("  message");
    message(out, number);
    out.phrase("", n, 12, "\n");
}
