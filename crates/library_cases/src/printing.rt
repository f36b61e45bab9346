//! Bytes as a transcript shows them, in lines of the form that cases have: texts as texts, others in hexadecimal, and
//! of long ones the front and the end.
use std::alloc::{AllocError, Global};

// The most bytes that are shown whole, and how many are shown of either end of more.
const MOST: usize = 4_096;

const END: usize = 64;

// How many bytes a line has in hexadecimal.
const WIDTH: usize = 40;

/// Adds the lines of bytes.
pub fn add_bytes(alloc: Global, bytes: &[u8], into: &mut String) -> Result<(), AllocError> {
    if bytes.len() <= MOST {
        return add_lines(alloc, bytes, into);
    }
    let (front, _) = bytes.split_at(END);
    let (_, end) = bytes.split_at(bytes.len() - END);
    let line = format!(in alloc; "{} bytes of sum {}, from\n", bytes.len(), sum_of(bytes))?;
    into.push_str(line.as_str())?;
    add_lines(alloc, front, into)?;
    into.push_str("to\n")?;
    add_lines(alloc, end, into)
}

// A sum in which each byte's place counts.
fn sum_of(bytes: &[u8]) -> u32 {
    let mut sum: u32 = 0;
    for byte in bytes {
        sum = sum.wrapping_mul(31).wrapping_add(u32::from(*byte));
    }
    sum
}

fn add_lines(alloc: Global, bytes: &[u8], into: &mut String) -> Result<(), AllocError> {
    match str::from_utf8(bytes) {
        Ok(text) if is_lines(text) => add_text(text, into),
        _ => add_hexadecimal(alloc, bytes, into),
    }
}

// Whether a text has no control character but the ends of its lines.
fn is_lines(text: &str) -> bool {
    text.split("\r\n").all(is_plain)
}

fn is_plain(text: &str) -> bool {
    text.chars().all(|letter| letter == '\n' || ' ' <= letter)
}

fn add_text(text: &str, into: &mut String) -> Result<(), AllocError> {
    for line in text.split_inclusive('\n') {
        if let Some(line) = line.strip_suffix("\r\n") {
            add_line("/", line, into)?;
        } else if let Some(line) = line.strip_suffix('\n') {
            add_line("|", line, into)?;
        } else {
            add_line(">", line, into)?;
        }
    }
    Ok(())
}

// Adds a line of that mark; an empty one has no blank.
fn add_line(mark: &str, line: &str, into: &mut String) -> Result<(), AllocError> {
    into.push_str(mark)?;
    if !line.is_empty() {
        into.push_str(" ")?;
    }
    into.push_str(line)?;
    into.push_str("\n")
}

fn add_hexadecimal(alloc: Global, bytes: &[u8], into: &mut String) -> Result<(), AllocError> {
    for line in bytes.chunks(WIDTH) {
        into.push_str("x ")?;
        for byte in line {
            let pair = format!(in alloc; "{byte:02x}")?;
            into.push_str(pair.as_str())?;
        }
        into.push_str("\n")?;
    }
    Ok(())
}
