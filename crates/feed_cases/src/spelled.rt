//! Numbers as they are spelled, and moments as the header of a feed.
use crate::printing::{add_hexadecimal, add_line, add_number};
use feed_messages::header_bytes;
use gw_base::Moment;
use std::alloc::{AllocError, Global};
use wire_fields::{spell_varint, varint_len};

/// Adds the shortest spelling of a number, and how long it is to be where it isn't.
pub fn add_varint(alloc: Global, number: u64, into: &mut String) -> Result<(), AllocError> {
    let spelled = spell_varint(number);
    add_hexadecimal(alloc, spelled.as_slice(), into)?;
    let length = varint_len(number);
    if length == spelled.as_slice().len() {
        return Ok(());
    }
    add_number(alloc, "length", length as u64, into)
}

/// Adds the header of a feed that is made at so many seconds.
pub fn add_header(alloc: Global, secs: u64, into: &mut String) -> Result<(), AllocError> {
    match moment_of(secs) {
        Some(moment) => add_hexadecimal(alloc, header_bytes(moment).as_slice(), into),
        None => add_line("no moment", into),
    }
}

fn moment_of(secs: u64) -> Option<Moment> {
    match i64::try_from(secs) {
        Ok(secs) => Moment::new(secs),
        Err(_) => None,
    }
}
