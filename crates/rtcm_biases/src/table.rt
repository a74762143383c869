// The table of one message.
use crate::found::{Found, Head, Lists, System};
use crate::options::Settings;
use bits::refusal::Refusal;
use messages::signals::Signal;
use printing::{Amount, Output, Terminal};
use reading::Account;
use whole::answer::{Header1059, Header1230};

// How many blocks were read, how many of them left eight or more bits unread, and how many were refused. Sums go round at
// 2^64.
#[derive(Clone, Copy)]
pub struct Tally {
    read: u64,
    unread: u64,
    refused: u64,
}

impl Tally {
    pub fn none() -> Tally {
        Tally {
            read: 0,
            unread: 0,
            refused: 0,
        }
    }

    fn is_none(self) -> bool {
        self.read == 0 && self.refused == 0
    }

    // One more block is read, with so many bits behind it, or refused.
    pub fn count(&mut self, answer: Result<usize, Refusal>) {
        match answer {
            Ok(left) => {
                self.read = self.read.wrapping_add(1);
                if is_warned_of(left) {
                    self.unread = self.unread.wrapping_add(1);
                }
            }
            Err(_) => self.refused = self.refused.wrapping_add(1),
        }
    }
}

// Before the first piece: the name.
pub fn opening(out: &mut Output<Terminal>, name: &[u8]) {
    out.bytes(name);
    out.text("\n");
}

// The message of the system, whose frame begins at the place. Answers how many bits are behind its block.
pub fn message(
    out: &mut Output<Terminal>,
    system: System,
    place: u64,
    data: &[u8],
    settings: Settings,
) -> Result<usize, Refusal> {
    out.phrase("  message ", u64::from(system.message()), 0, " at byte ");
    out.unsigned(place, 0);
    let mut lists = Lists::new();
    match lists.read(system, data, settings.start(system)) {
        Ok(found) => {
            head(out, found);
            rows(out, system, settings.edition, &lists, found.count);
            let left = left_behind(data, found.end);
            left_over(out, left);
            Ok(left)
        }
        Err(refusal) => {
            refused(out, refusal);
            Err(refusal)
        }
    }
}

// Why a message is refused.
fn refused(out: &mut Output<Terminal>, refusal: Refusal) {
    match refusal {
        Refusal::Size => out.text(": refused, Size\n"),
        Refusal::Short { place, .. } => {
            out.phrase(": refused, Short at data bit ", place as u64, 0, "\n");
        }
        Refusal::Room(count) => out.phrase(": refused, Room for ", count as u64, 0, " records\n"),
        _ => out.text(": refused, Kind\n"),
    }
}

// How many biases there are, and what the header tells, if it is known.
fn head(out: &mut Output<Terminal>, found: Found) {
    out.phrase(": ", found.count as u64, 0, " biases\n");
    match found.head {
        Some(Head::Of1059(header)) => header_1059(out, header),
        Some(Head::Of1230(header)) => header_1230(out, header),
        None => {}
    }
}

fn header_1059(out: &mut Output<Terminal>, header: Header1059) {
    told(out, "    provider ", header.provider);
    told(out, ", solution ", header.solution);
    told(out, ", IOD ", header.iod);
    told(out, ", epoch ", header.epoch);
    told(out, " s, update interval ", header.interval);
    told(out, ", multiple message flag ", header.multiple);
    out.text("\n");
}

fn header_1230(out: &mut Output<Terminal>, header: Header1230) {
    told(out, "    station ", header.station);
    told(out, ", indicator ", header.indicator);
    told(out, ", reserved ", header.reserved);
    out.text("\n");
}

fn told(out: &mut Output<Terminal>, before: &str, n: u32) {
    out.phrase(before, u64::from(n), 0, "");
}

// The rows of the first `count` records, under the heads of their columns.
fn rows(out: &mut Output<Terminal>, system: System, edition: u32, lists: &Lists, count: usize) {
    out.text("    satellite  signal       raw    metres\n");
    let records = lists
        .satellites
        .iter()
        .zip(&lists.signals)
        .zip(&lists.biases);
    for ((satellite, number), bias) in records.take(count) {
        match system {
            System::Gps => out.unsigned(u64::from(*satellite), 13),
            System::Glonass => out.text("            -"),
        }
        signal(out, system.signal(edition, *number), u64::from(*number));
        out.signed(Amount::from(i64::from(*bias)), 10);
        out.hundredths(Amount::from(i64::from(system.hundredths(*bias))), 10);
        out.text("\n");
    }
}

// The name of a signal: its band and its letter, or its number in brackets.
pub fn signal(out: &mut Output<Terminal>, signal: Option<Signal>, number: u64) {
    match signal {
        Some(Signal { band, letter }) => {
            out.unsigned(u64::from(band), 7);
            out.bytes(&[letter]);
        }
        None => {
            if number < 10 {
                out.text(" ");
            }
            out.phrase("    (", number, 0, ")");
        }
    }
}

// How many bits of the data are behind the block.
fn left_behind(data: &[u8], end: usize) -> usize {
    data.len().saturating_mul(8).saturating_sub(end)
}

// A message ends with its block and fills its last byte, so eight or more bits behind it are a warning.
fn is_warned_of(left: usize) -> bool {
    8 <= left
}

// The bits behind the block.
fn left_over(out: &mut Output<Terminal>, left: usize) {
    out.phrase("    ", left as u64, 0, " bits left over behind the block");
    if is_warned_of(left) {
        out.text(": WARNING, the block may start at another data bit (--start)");
    }
    out.text("\n");
}

// Behind the last block, if anything was read: how many were read and refused, or why there is none.
pub fn closing(out: &mut Output<Terminal>, account: Account, tally: Tally) {
    if account.bytes == 0 {
        return;
    }
    if account.frames == 0 {
        out.text("  no frames\n\n");
        return;
    }
    if tally.is_none() {
        out.phrase(
            "  no message 1059 or 1230 in ",
            account.frames,
            0,
            " frames\n\n",
        );
        return;
    }
    out.phrase("  ", tally.read, 0, " blocks read, ");
    out.phrase("", tally.refused, 0, " refused");
    if tally.unread != 0 {
        out.phrase(
            "; WARNING, ",
            tally.unread,
            0,
            " leave eight or more bits unread",
        );
    }
    out.text("\n\n");
}
