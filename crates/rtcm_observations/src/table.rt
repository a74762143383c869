// The table of one message.
use bits::refusal::Refusal;
use observations::answer::{Message, Observation};
use observations::measured::Measured;
use observations::{measured, read};
use printing::{Amount, Output, Terminal};
use reading::Account;

// How many messages were read, and how many were refused. Sums go round at 2^64.
#[derive(Clone, Copy, PartialEq, Eq)]
pub struct Tally {
    read: u64,
    refused: u64,
}

impl Tally {
    pub fn none() -> Tally {
        Tally {
            read: 0,
            refused: 0,
        }
    }

    // One more message.
    fn count(&mut self, answer: &Result<Message, Refusal>) {
        let counter = match answer {
            Ok(_) => &mut self.read,
            Err(_) => &mut self.refused,
        };
        *counter = counter.wrapping_add(1);
    }
}

// The observations of a message, which has at most 31: number i is number i of each list.
#[derive(Drop)]
struct Observations {
    satellites: [u8; 31],
    codes: [u8; 31],
    pseudoranges: [u32; 31],
    phases: [i32; 31],
    locks: [u8; 31],
}

impl Observations {
    fn none() -> Observations {
        Observations {
            satellites: [0; 31],
            codes: [0; 31],
            pseudoranges: [0; 31],
            phases: [0; 31],
            locks: [0; 31],
        }
    }

    // Reads those of the message.
    fn read(&mut self, data: &[u8]) -> Result<Message, Refusal> {
        read::read(
            data,
            &mut self.satellites,
            &mut self.codes,
            &mut self.pseudoranges,
            &mut self.phases,
            &mut self.locks,
        )
    }

    // A row for each of the first so many.
    fn rows(&self, out: &mut Output<Terminal>, count: usize) {
        let whose = self.satellites.iter().zip(&self.codes);
        let measured = self.pseudoranges.iter().zip(&self.phases);
        let all = whose.zip(measured).zip(&self.locks);
        for (((satellite, code), (pseudorange, phase)), lock) in all.take(count) {
            let seen = Observation {
                satellite: *satellite,
                code: *code,
                pseudorange: *pseudorange,
                phase: *phase,
                lock: *lock,
            };
            row(out, seen);
        }
    }
}

// Before the first piece: the name.
pub fn opening(out: &mut Output<Terminal>, name: &[u8]) {
    out.bytes(name);
    out.text("\n");
}

// The message of the data.
pub fn message(out: &mut Output<Terminal>, data: &[u8], place: u64, tally: &mut Tally) {
    let mut observations = Observations::none();
    let answer = observations.read(data);
    tally.count(&answer);
    out.phrase("  message 1001 at byte ", place, 0, "");
    match answer {
        Ok(message) => {
            heading(out, message);
            observations.rows(out, message.count);
        }
        Err(refusal) => refused(out, refusal),
    }
}

// Behind the last message, if anything was read: how many were read and refused, or why there is none.
pub fn closing(out: &mut Output<Terminal>, account: Account, tally: Tally) {
    if account.bytes == 0 {
        return;
    }
    if account.frames == 0 {
        out.text("  no frames\n\n");
        return;
    }
    if tally == Tally::none() {
        out.phrase("  no message 1001 in ", account.frames, 0, " frames\n\n");
        return;
    }
    out.phrase("  ", tally.read, 0, " messages read, ");
    out.phrase("", tally.refused, 0, " refused\n\n");
}

// The head of a message.
fn heading(out: &mut Output<Terminal>, message: Message) {
    let header = message.header;
    out.phrase(": station ", u64::from(header.station), 0, ", epoch ");
    out.unsigned(u64::from(header.epoch), 0);
    out.phrase(" ms, ", message.count as u64, 0, " observations\n");
}

// Why a message is refused.
fn refused(out: &mut Output<Terminal>, refusal: Refusal) {
    match refusal {
        Refusal::Short { place, .. } => {
            out.phrase(": refused, Short at data bit ", place as u64, 0, "\n");
        }
        Refusal::Kind => out.text(": refused, Kind\n"),
        Refusal::Room(_) => out.text(": refused, Room\n"),
        // Reading a message gives no other one than Size.
        _ => out.text(": refused, Size\n"),
    }
}

fn row(out: &mut Output<Terminal>, seen: Observation) {
    out.phrase("    satellite ", u64::from(seen.satellite), 2, ", code ");
    out.unsigned(u64::from(seen.code), 0);
    pseudorange(out, seen.pseudorange);
    phase(out, seen.phase);
    out.phrase(", lock ", u64::from(seen.lock), 3, "\n");
}

// A pseudorange: its raw number, in 0.02 m, and the metres.
fn pseudorange(out: &mut Output<Terminal>, raw: u32) {
    out.phrase(", pseudorange ", u64::from(raw), 8, " ");
    match measured::pseudorange(raw) {
        Measured::Absent => out.text("    absent"),
        _ => out.hundredths(Amount::from(i64::from(raw) * 2), 10),
    }
}

// A phase range: its raw number, and the metres.
fn phase(out: &mut Output<Terminal>, raw: i32) {
    out.text(", phase ");
    out.signed(Amount::from(i64::from(raw)), 7);
    match measured::phase(raw) {
        Measured::Absent => out.text("    absent"),
        _ => metres(out, raw),
    }
}

// So many times 0.0005 m, in metres with four digits behind the point: one by one, since an Output puts no zeros before a
// number.
fn metres(out: &mut Output<Terminal>, raw: i32) {
    let n = u64::from(raw.unsigned_abs()) * 5;
    let whole = Amount {
        negative: raw < 0,
        size: n / 10_000,
    };
    out.signed(whole, 5);
    out.phrase(".", n / 1000 % 10, 0, "");
    out.unsigned(n / 100 % 10, 0);
    out.unsigned(n / 10 % 10, 0);
    out.unsigned(n % 10, 0);
}
