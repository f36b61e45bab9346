//! Bytes as lines of content say them: texts, bytes in hexadecimal, pieces that have a name, and repetitions.
use gw_base::{Bytes, Text};
use std::alloc::{AllocError, Global};

/// Why a line isn't carried out.
#[derive(Clone, Copy, Debug, PartialEq, Eq)]
pub enum Trouble {
    /// Want of memory.
    Memory,
    /// It isn't in the form of a case.
    Form,
}

impl From<AllocError> for Trouble {
    fn from(_: AllocError) -> Trouble {
        Trouble::Memory
    }
}

/// Bytes with their name.
pub type Named = (Text, Bytes);

/// The bytes that had that name last.
pub fn bytes_of<'a>(all: &'a [Named], name: &str) -> Option<&'a Bytes> {
    let mut last = None;
    for (held, bytes) in all {
        if held.as_str() == name {
            last = Some(bytes);
        }
    }
    last
}

/// Whether a line is one of content, which says what bytes are.
pub fn is_content(line: &str) -> bool {
    matches!(first_word(line).0, "|" | "/" | ">" | "x" | "_" | "+" | "*")
}

/// The first word of a line, and what stands behind the blank after it.
pub fn first_word(line: &str) -> (&str, &str) {
    match line.split_once(' ') {
        Some(parts) => parts,
        None => (line, ""),
    }
}

/// Adds the bytes of a line of content.
pub fn add_content(
    alloc: Global,
    pieces: &[Named],
    line: &str,
    into: &mut Bytes,
) -> Result<(), Trouble> {
    match first_word(line) {
        ("*", rest) => add_repeated(alloc, pieces, rest, into),
        (mark, rest) => add_once(pieces, mark, rest, into),
    }
}

// Adds the bytes of a line that isn't repeated.
fn add_once(pieces: &[Named], mark: &str, rest: &str, into: &mut Bytes) -> Result<(), Trouble> {
    match mark {
        "|" => add_text(rest, "\n", into),
        "/" => add_text(rest, "\r\n", into),
        ">" => add_text(rest, "", into),
        "x" => add_hexadecimal(rest, into),
        "_" => add_blanks(rest, into),
        "+" => add_piece(bytes_of(pieces, rest), into),
        _ => Err(Trouble::Form),
    }
}

// Adds a text and the end of its line.
fn add_text(text: &str, end: &str, into: &mut Bytes) -> Result<(), Trouble> {
    into.extend(text.as_bytes())?;
    into.extend(end.as_bytes())?;
    Ok(())
}

fn add_piece(piece: Option<&Bytes>, into: &mut Bytes) -> Result<(), Trouble> {
    match piece {
        Some(bytes) => Ok(into.extend(bytes.as_slice())?),
        None => Err(Trouble::Form),
    }
}

// Adds the bytes of pairs of hexadecimal digits.
fn add_hexadecimal(text: &str, into: &mut Bytes) -> Result<(), Trouble> {
    let mut high = None;
    for letter in text.chars() {
        let Some(digit) = letter.to_digit(16) else {
            return Err(Trouble::Form);
        };
        let digit = digit as u8;
        high = match high {
            None => Some(digit),
            Some(before) => {
                into.push(16_u8.wrapping_mul(before).wrapping_add(digit))?;
                None
            }
        };
    }
    match high {
        None => Ok(()),
        Some(_) => Err(Trouble::Form),
    }
}

// Adds blanks until there are so many bytes.
fn add_blanks(count: &str, into: &mut Bytes) -> Result<(), Trouble> {
    let Ok(count) = count.parse::<usize>() else {
        return Err(Trouble::Form);
    };
    for _ in into.len()..count {
        into.push(b' ')?;
    }
    Ok(())
}

// Adds the bytes of the line `FROM TO CONTENT`, once for each number, which stands in the place of each `#`.
fn add_repeated(
    alloc: Global,
    pieces: &[Named],
    line: &str,
    into: &mut Bytes,
) -> Result<(), Trouble> {
    let (from, line) = first_word(line);
    let (to, line) = first_word(line);
    let (mark, rest) = first_word(line);
    let mut once = Bytes::new(alloc);
    add_once(pieces, mark, rest, &mut once)?;
    match (from.parse::<u32>(), to.parse::<u32>()) {
        (Ok(from), Ok(to)) => add_numbered(alloc, once.as_slice(), from, to, into),
        _ => Err(Trouble::Form),
    }
}

fn add_numbered(
    alloc: Global,
    once: &[u8],
    from: u32,
    to: u32,
    into: &mut Bytes,
) -> Result<(), Trouble> {
    for number in from..=to {
        let number = format!(in alloc; "{number}")?;
        add_with(once, number.as_str().as_bytes(), into)?;
    }
    Ok(())
}

// Adds bytes with that in the place of each `#`.
fn add_with(once: &[u8], number: &[u8], into: &mut Bytes) -> Result<(), AllocError> {
    for byte in once {
        if *byte == b'#' {
            into.extend(number)?;
        } else {
            into.push(*byte)?;
        }
    }
    Ok(())
}
