//! Bytes as the words of a line say them: fields of the protobuf encoding, and bytes in hexadecimal.
use crate::printing::Trouble;
use gw_base::Bytes;
use std::alloc::Global;
use std::mem;
use wire_fields::spell_varint;

// A field that is open: its number, and the bytes before it.
#[derive(Drop)]
struct Open {
    number: u64,
    before: Bytes,
}

// The bytes of the words so far, of those since the innermost open field.
#[derive(Drop)]
struct Written {
    open: Vec<Open>,
    bytes: Bytes,
}

/// The bytes of a line: its words `N{` and `}` round those of a field of bytes, `N:TEXT` a field of a text, `N=V` of a
/// number, `COUNTxDIGITS` the same bytes again and again, and `DIGITS` bytes in hexadecimal.
pub fn bytes_of(alloc: Global, line: &str) -> Result<Bytes, Trouble> {
    let mut written = Written {
        open: Vec::new(alloc),
        bytes: Bytes::new(alloc),
    };
    for word in line.split(' ') {
        written.add(alloc, word)?;
    }
    if written.open.is_empty() {
        Ok(written.bytes)
    } else {
        Err(Trouble::Form)
    }
}

impl Written {
    fn add(&mut self, alloc: Global, word: &str) -> Result<(), Trouble> {
        if word == "}" {
            return self.close();
        }
        if let Some((number, text)) = word.split_once(':') {
            return self.add_text(number, text);
        }
        if let Some((number, value)) = word.split_once('=') {
            return self.add_number(number, value);
        }
        match word.strip_suffix('{') {
            Some(number) => self.open(alloc, number),
            None => add_bytes(alloc, word, &mut self.bytes),
        }
    }

    fn open(&mut self, alloc: Global, number: &str) -> Result<(), Trouble> {
        let number = number_of(number)?;
        let before = mem::replace(&mut self.bytes, Bytes::new(alloc));
        match self.open.push(Open { number, before }) {
            Ok(()) => Ok(()),
            Err(_) => Err(Trouble::Memory),
        }
    }

    fn close(&mut self) -> Result<(), Trouble> {
        let Some(Open { number, before }) = self.open.pop() else {
            return Err(Trouble::Form);
        };
        let inner = mem::replace(&mut self.bytes, before);
        add_field(number, inner.as_slice(), &mut self.bytes)
    }

    fn add_text(&mut self, number: &str, text: &str) -> Result<(), Trouble> {
        add_field(number_of(number)?, text.as_bytes(), &mut self.bytes)
    }

    fn add_number(&mut self, number: &str, value: &str) -> Result<(), Trouble> {
        add_varint(tag(number_of(number)?, 0), &mut self.bytes)?;
        add_varint(value_of(value)?, &mut self.bytes)
    }
}

fn number_of(word: &str) -> Result<u64, Trouble> {
    match word.parse::<u64>() {
        Ok(number) => Ok(number),
        Err(_) => Err(Trouble::Form),
    }
}

// A number of 64 bits; one below 0 stands for that plus 2 to the 64th.
fn value_of(word: &str) -> Result<u64, Trouble> {
    match word.parse::<i64>() {
        Ok(value) => Ok(value.cast_unsigned()),
        Err(_) => number_of(word),
    }
}

// The tag of a number and a type.
fn tag(number: u64, kind: u64) -> u64 {
    number.wrapping_mul(8).wrapping_add(kind)
}

fn add_varint(value: u64, into: &mut Bytes) -> Result<(), Trouble> {
    Ok(into.extend(spell_varint(value).as_slice())?)
}

fn add_field(number: u64, bytes: &[u8], into: &mut Bytes) -> Result<(), Trouble> {
    add_varint(tag(number, 2), into)?;
    add_varint(bytes.len() as u64, into)?;
    Ok(into.extend(bytes)?)
}

fn add_bytes(alloc: Global, word: &str, into: &mut Bytes) -> Result<(), Trouble> {
    match word.split_once('x') {
        Some((count, digits)) => add_repeated(alloc, number_of(count)?, digits, into),
        None => add_digits(word, into),
    }
}

fn add_repeated(alloc: Global, count: u64, digits: &str, into: &mut Bytes) -> Result<(), Trouble> {
    let mut once = Bytes::new(alloc);
    add_digits(digits, &mut once)?;
    for _ in 0..count {
        into.extend(once.as_slice())?;
    }
    Ok(())
}

// Adds the bytes of pairs of hexadecimal digits.
fn add_digits(text: &str, into: &mut Bytes) -> Result<(), Trouble> {
    let mut high = None;
    for letter in text.chars() {
        let Some(digit) = letter.to_digit(16) else {
            return Err(Trouble::Form);
        };
        let digit = digit as u8;
        high = match high {
            None => Some(digit),
            Some(before) => {
                into.push(16_u8.wrapping_mul(before).wrapping_add(digit))?;
                None
            }
        };
    }
    match high {
        None => Ok(()),
        Some(_) => Err(Trouble::Form),
    }
}
