//! Lines of answers: texts as texts, other bytes in hexadecimal.
use gw_base::Bytes;
use journey_model::{Report, add_report};
use std::alloc::{AllocError, Global};

/// Why a line isn't carried out.
#[derive(Clone, Copy, Debug, PartialEq, Eq)]
pub enum Trouble {
    /// Want of memory.
    Memory,
    /// It isn't in the form of a case.
    Form,
}

impl From<AllocError> for Trouble {
    fn from(_: AllocError) -> Trouble {
        Trouble::Memory
    }
}

// The most bytes of a text that are shown.
const MOST: usize = 4_096;

/// Adds a line.
pub fn add_line(line: &str, into: &mut String) -> Result<(), AllocError> {
    into.push_str(line)?;
    into.push_str("\n")
}

/// Adds the line of a word and a number.
pub fn add_number(
    alloc: Global,
    word: &str,
    number: u64,
    into: &mut String,
) -> Result<(), AllocError> {
    let line = format!(in alloc; "{word} {number}")?;
    add_line(line.as_str(), into)
}

/// Adds the line of bytes in hexadecimal.
pub fn add_hexadecimal(alloc: Global, bytes: &[u8], into: &mut String) -> Result<(), AllocError> {
    for byte in bytes {
        let pair = format!(in alloc; "{byte:02x}")?;
        into.push_str(pair.as_str())?;
    }
    into.push_str("\n")
}

/// Adds bytes that are a text; of a long one how long it is and a sum in which each byte's place counts.
pub fn add_text(alloc: Global, bytes: &[u8], into: &mut String) -> Result<(), AllocError> {
    if bytes.len() > MOST {
        let line = format!(in alloc; "{} bytes of sum {}", bytes.len(), sum_of(bytes))?;
        return into.push_str(line.as_str());
    }
    match str::from_utf8(bytes) {
        Ok(text) => into.push_str(text),
        Err(_) => into.push_str("no text"),
    }
}

fn sum_of(bytes: &[u8]) -> u32 {
    let mut sum: u32 = 0;
    for byte in bytes {
        sum = sum.wrapping_mul(31).wrapping_add(u32::from(*byte));
    }
    sum
}

/// Adds the lines of a report.
pub fn add_reported(alloc: Global, report: &Report, into: &mut String) -> Result<(), AllocError> {
    let mut lines = Bytes::new(alloc);
    add_report(&mut lines, b"", report)?;
    add_text(alloc, lines.as_slice(), into)
}

/// Adds what another call answers, where it isn't the same.
pub fn add_other(name: &str, other: &str, one: &str, into: &mut String) -> Result<(), AllocError> {
    if other == one {
        return Ok(());
    }
    add_line(name, into)?;
    into.push_str(other)
}
