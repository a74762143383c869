// Runs outside vectors through crates `bits` and `frames` and writes what comes out, to be compared with what should.
#![tactic(auto)]

use bits::refusal::Refusal;
use bits::{crc, field};
use frames::frame;
use printing::Terminal;
use std::fmt::Display;
use std::fs::{File, Files};
use std::io;
use std::io::Read;

fn main(rt: HostRuntime) {
    checksums(&rt);
    match load(&rt) {
        Ok(bytes) => standard_examples(&rt, &bytes),
        Err(error) => Terminal::new(rt.stdout(), rt.stderr()).fail(b"rtcm3.bin", &error),
    }
    readings(&rt);
    wide_readings(&rt);
    top_bit_readings(&rt);
    refusals(&rt);
    writings(&rt);
}

fn checksums(out: &impl Print) {
    checksum(
        out,
        "checksum of 123456789 (catalogued as CRC-24/LTE-A)",
        b"123456789",
    );
    checksum(out, "checksum of nothing", b"");
    checksum(out, "checksum of D3", b"\xD3");
    checksum(out, "checksum of D3 00 00", b"\xD3\x00\x00");
    let continued = crc::crc24q_from(crc::crc24q(b"1234"), b"56789");
    say(
        out,
        format_args!("checksum of 1234, continued over 56789: {continued:06x}"),
    );
}

// The bytes of the file that has the two frames that the standard works out, messages 1029 and 1005. Where they are too few,
// zeros stand behind them.
fn load(files: &impl Files<File = File>) -> io::Result<[u8; 72]> {
    let mut bytes = [0u8; 72];
    let mut file = File::open(files, "rtcm3.bin")?;
    let _ = file.read_exact(&mut bytes);
    Ok(bytes)
}

// Those two frames, and their fields.
fn standard_examples(out: &impl Print, bytes: &[u8; 72]) {
    checksum(out, "1029, checksum computed", &bytes[..42]);
    unsigned(out, "1029, checksum sent (EDA33B)", bytes, 336, 24);
    length(out, "1029, bytes of the frame", frame::frame_part(bytes));
    text_fields(out, frame::data_part(bytes));
    checksum(out, "1005, checksum computed", &bytes[46..68]);
    unsigned(out, "1005, checksum sent (360B98)", bytes, 544, 24);
    unsigned(out, "1005, message number", bytes, 392, 12);
    unsigned(out, "1005, station", bytes, 404, 12);
    unsigned(out, "1005, realization year", bytes, 416, 6);
    twos(out, "1005, X in 0.1 mm", bytes, 426, 38);
    twos(out, "1005, Y in 0.1 mm", bytes, 466, 38);
    twos(out, "1005, Z in 0.1 mm", bytes, 506, 38);
}

fn text_fields(out: &impl Print, data: &[u8]) {
    length(out, "1029, bytes of data", data);
    unsigned(out, "1029, message number", data, 0, 12);
    unsigned(out, "1029, station", data, 12, 12);
    unsigned(out, "1029, modified Julian day", data, 24, 16);
    unsigned(out, "1029, seconds of day", data, 40, 17);
    unsigned(out, "1029, characters", data, 57, 7);
    unsigned(out, "1029, code units", data, 64, 8);
}

fn readings(out: &impl Print) {
    unsigned(out, "A5, start 2, width 3", b"\xA5", 2, 3);
    twos(out, "in two's complement", b"\xA5", 2, 3);
    signmag(out, "as sign and magnitude", b"\xA5", 2, 3);
    unsigned(out, "F1, start 0, width 5", b"\xF1", 0, 5);
    twos(out, "in two's complement", b"\xF1", 0, 5);
    signmag(out, "as sign and magnitude", b"\xF1", 0, 5);
}

fn wide_readings(out: &impl Print) {
    let ones = [255u8; 9];
    unsigned(out, "64 ones, start 3", &ones, 3, 64);
    twos(out, "in two's complement", &ones, 3, 64);
    signmag(out, "as sign and magnitude", &ones, 3, 64);
}

fn top_bit_readings(out: &impl Print) {
    let top = b"\x80\x00\x00\x00\x00\x00\x00\x00";
    twos(
        out,
        "64 bits, the top one set, in two's complement",
        top,
        0,
        64,
    );
    signmag(out, "as sign and magnitude (minus zero)", top, 0, 64);
    signmag(out, "one bit, set, as sign and magnitude", top, 0, 1);
}

fn refusals(out: &impl Print) {
    let large = [0u8; 1024];
    let most = &large[..1023];
    unsigned(out, "1,024 bytes, width 0", &large, 0, 0);
    unsigned(out, "1,023 bytes, width 0", most, 0, 0);
    unsigned(out, "width 65", most, 0, 65);
    unsigned(out, "the last bit of 1,023 bytes", most, 8183, 1);
    unsigned(out, "one bit behind it", most, 8184, 1);
    unsigned(out, "start at the largest number", b"\x00", usize::MAX, 64);
}

fn writings(out: &impl Print) {
    let mut area = [255u8, 0, 255];
    let answer = field::write_unsigned(&mut area, 6, 12, 0xA5A);
    written(
        out,
        "A5A into 12 bits from bit 6 of FF 00 FF",
        answer,
        &area,
    );
    let answer = field::write_twos(&mut area, 3, 14, -8192);
    written(out, "-8192 into 14 bits from bit 3", answer, &area);
    let answer = field::write_twos(&mut area, 3, 14, 8191);
    written(out, "8191 there", answer, &area);
    told(out, "8192 there", field::write_twos(&mut area, 3, 14, 8192));
    told(
        out,
        "10000 there",
        field::write_twos(&mut area, 3, 14, 10000),
    );
    let answer = field::write_signmag(&mut area, 3, 14, -8192);
    told(out, "-8192 there as sign and magnitude", answer);
    let answer = field::write_signmag(&mut area, 3, 14, -8191);
    written(out, "-8191 there as sign and magnitude", answer, &area);
    let answer = field::write_unsigned(&mut area, 24, 13, 8192);
    told(out, "8192 behind the end", answer);
    let answer = field::write_unsigned(&mut area, 24, 13, 8191);
    written(out, "8191 behind the end", answer, &area);
}

// ---- printing

// A line. Where it cannot be written, nothing is done: it is missed where what was written is compared.
fn say(out: &impl Print, words: impl Display + Drop) {
    let _ = out.println(words);
}

fn checksum(out: &impl Print, name: &str, bytes: &[u8]) {
    let sum = crc::crc24q(bytes);
    say(out, format_args!("{name}: {sum:06x}"));
}

// How many bytes a part has.
fn length(out: &impl Print, name: &str, part: &[u8]) {
    let n = part.len();
    say(out, format_args!("{name}: {n}"));
}

fn unsigned(out: &impl Print, name: &str, bytes: &[u8], start: usize, width: usize) {
    read(out, name, field::read_unsigned(bytes, start, width));
}

fn twos(out: &impl Print, name: &str, bytes: &[u8], start: usize, width: usize) {
    read(out, name, field::read_twos(bytes, start, width));
}

fn signmag(out: &impl Print, name: &str, bytes: &[u8], start: usize, width: usize) {
    read(out, name, field::read_signmag(bytes, start, width));
}

// What reading a field answers.
fn read(out: &impl Print, name: &str, answer: Result<(impl Display + Copy, usize), Refusal>) {
    match answer {
        Ok((value, next)) => say(out, format_args!("{name}: {value}, next bit {next}")),
        Err(refusal) => refused(out, name, refusal),
    }
}

// What writing a field answers.
fn told(out: &impl Print, name: &str, answer: Result<usize, Refusal>) {
    match answer {
        Ok(next) => say(out, format_args!("{name}: written, next bit {next}")),
        Err(refusal) => refused(out, name, refusal),
    }
}

// The same, and the area behind it.
fn written(out: &impl Print, name: &str, answer: Result<usize, Refusal>, area: &[u8; 3]) {
    told(out, name, answer);
    let [a, b, c] = *area;
    say(out, format_args!("    {a:02x}{b:02x}{c:02x}"));
}

fn refused(out: &impl Print, name: &str, refusal: Refusal) {
    match refusal {
        Refusal::Short { place, .. } => say(out, format_args!("{name}: Short {place}")),
        Refusal::Room(width) => say(out, format_args!("{name}: Room {width}")),
        Refusal::Range(_) => say(out, format_args!("{name}: Range")),
        Refusal::Width => say(out, format_args!("{name}: Width")),
        // A field is refused for nothing else.
        _ => say(out, format_args!("{name}: Size")),
    }
}
