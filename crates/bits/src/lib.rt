// Bit fields in bytes, and the checksum CRC-24Q.
//
// `specs/` says what each function answers: read it first. Every call refuses what it cannot do with a number of
// the table in `specs/Told.antt`, and a refused call writes nothing.
#![tactic(auto)]

pub mod crc;
pub mod field;
mod fold;
mod raw;
pub mod refusal;
mod signed;
