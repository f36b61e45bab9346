//! Bytes as fields of the protobuf encoding.
use crate::printing::{add_line, add_number};
use crate::wire::{Count, count, count_in_pieces};
use gw_base::WireKind;
use std::alloc::{AllocError, Global};
use wire_fields::WireFault;

/// The name of a kind of break.
pub fn kind_name(kind: WireKind) -> &'static str {
    match kind {
        WireKind::Truncated => "Truncated",
        WireKind::LongVarint => "LongVarint",
        WireKind::BadTag => "BadTag",
        WireKind::BadGroup => "BadGroup",
        WireKind::DeepGroup => "DeepGroup",
    }
}

/// Adds a break.
pub fn add_break(alloc: Global, fault: WireFault, into: &mut String) -> Result<(), AllocError> {
    let line = format!(in alloc; "Wire {} {}", fault.at, kind_name(fault.kind))?;
    add_line(line.as_str(), into)
}

fn add_count(alloc: Global, count: Count, into: &mut String) -> Result<(), AllocError> {
    match count {
        Ok(fields) => add_number(alloc, "fields", fields as u64, into),
        Err(fault) => add_break(alloc, fault, into),
    }
}

// Adds what is read in pieces, where it isn't the same.
fn add_pieces(
    alloc: Global,
    whole: Count,
    pieces: Option<Count>,
    into: &mut String,
) -> Result<(), AllocError> {
    match pieces {
        Some(count) if count == whole => Ok(()),
        Some(count) => {
            into.push_str("in pieces ")?;
            add_count(alloc, count, into)
        }
        None => add_line("too many bytes", into),
    }
}

/// Adds how many fields bytes are, and that of pieces of 1, 7 and 4,096 bytes where it isn't the same.
pub fn add_fields(alloc: Global, bytes: &[u8], into: &mut String) -> Result<(), AllocError> {
    let whole = count(alloc, bytes)?;
    add_count(alloc, whole, into)?;
    add_pieces(alloc, whole, count_in_pieces(bytes, 1), into)?;
    add_pieces(alloc, whole, count_in_pieces(bytes, 7), into)?;
    add_pieces(alloc, whole, count_in_pieces(bytes, 4_096), into)
}

// Adds a count from a place on.
fn add_from(
    alloc: Global,
    place: usize,
    count: Count,
    into: &mut String,
) -> Result<(), AllocError> {
    let line = format!(in alloc; "from {place} ")?;
    into.push_str(line.as_str())?;
    add_count(alloc, count, into)
}

/// Adds from which length on how many fields a front of the bytes is.
pub fn add_field_fronts(alloc: Global, bytes: &[u8], into: &mut String) -> Result<(), AllocError> {
    let mut before = None;
    for end in 0..=bytes.len() {
        let (front, _) = bytes.split_at(end);
        let one = count(alloc, front)?;
        if before != Some(one) {
            add_from(alloc, end, one, into)?;
        }
        before = Some(one);
    }
    Ok(())
}

/// Adds from which byte on how many fields each byte alone is.
pub fn add_each_byte(alloc: Global, bytes: &[u8], into: &mut String) -> Result<(), AllocError> {
    let mut before = None;
    for (place, byte) in bytes.iter().enumerate() {
        let one = count(alloc, &[*byte])?;
        if before != Some(one) {
            add_from(alloc, place, one, into)?;
        }
        before = Some(one);
    }
    Ok(())
}
