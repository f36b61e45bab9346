//! What the bytes of a feed say: its header and its entities, each as it is written again, or its fault.
use crate::fields::add_break;
use crate::pieces::{by_cut, by_pieces};
use crate::printing::{add_hexadecimal, add_line, add_number, add_other};
use feed_messages::{FeedFault, FeedHead, PlainFault, entity_bytes, plain_feed, read_feed};
use gw_base::{Entity, Feed, Required};
use std::alloc::{AllocError, Global};

// The most bytes of a feed that is read with each cut.
const MOST_CUT: usize = 512;

/// Adds why bytes are no feed.
pub fn add_fault(alloc: Global, fault: FeedFault, into: &mut String) -> Result<(), AllocError> {
    match fault {
        FeedFault::EntityTooLong(at) => add_number(alloc, "EntityTooLong", at, into),
        FeedFault::Wire(fault) => add_break(alloc, fault, into),
        FeedFault::NotText(at) => add_number(alloc, "NotText", at, into),
        FeedFault::MissingField(at, field) => add_missing(alloc, at, field, into),
        FeedFault::Memory => Err(AllocError),
    }
}

fn add_missing(
    alloc: Global,
    at: u64,
    field: Required,
    into: &mut String,
) -> Result<(), AllocError> {
    let line = format!(in alloc; "MissingField {at} {}", field.name())?;
    add_line(line.as_str(), into)
}

/// Adds an entity as it is written.
pub fn add_entity(alloc: Global, entity: &Entity, into: &mut String) -> Result<(), AllocError> {
    let bytes = entity_bytes(alloc, entity)?;
    into.push_str("entity ")?;
    add_hexadecimal(alloc, bytes.as_slice(), into)
}

// Adds a header.
fn add_head(alloc: Global, head: &FeedHead, into: &mut String) -> Result<(), AllocError> {
    into.push_str("version ")?;
    into.push_str(head.version.as_str())?;
    let rest = format!(in alloc; " incrementality {} timestamp ", head.incrementality)?;
    into.push_str(rest.as_str())?;
    match head.timestamp {
        Some(secs) => {
            let digits = format!(in alloc; "{secs}\n")?;
            into.push_str(digits.as_str())
        }
        None => into.push_str("-\n"),
    }
}

/// The lines of a feed, by its header or its fault and the lines of its entities.
pub fn lines_of(
    alloc: Global,
    head: Result<FeedHead, FeedFault>,
    entities: &str,
) -> Result<String, AllocError> {
    let mut lines = String::new(alloc);
    match head {
        Ok(head) => {
            add_head(alloc, &head, &mut lines)?;
            lines.push_str(entities)?;
        }
        Err(fault) => add_fault(alloc, fault, &mut lines)?,
    }
    Ok(lines)
}

// The lines of a feed that is read.
fn of_feed(alloc: Global, feed: Feed) -> Result<String, AllocError> {
    let mut entities = String::new(alloc);
    for entity in feed.entities.as_slice() {
        add_entity(alloc, entity, &mut entities)?;
    }
    let head = FeedHead {
        version: feed.version,
        incrementality: feed.incrementality,
        timestamp: feed.timestamp,
    };
    lines_of(alloc, Ok(head), entities.as_str())
}

// The lines of bytes.
fn of_bytes(alloc: Global, bytes: &[u8]) -> Result<String, AllocError> {
    match read_feed(alloc, bytes) {
        Ok(feed) => of_feed(alloc, feed),
        Err(fault) => lines_of(alloc, Err(fault), ""),
    }
}

// Adds what the plain reader says, where it isn't the same; it tells no faults.
fn add_plain(
    alloc: Global,
    bytes: &[u8],
    whole: &str,
    into: &mut String,
) -> Result<(), AllocError> {
    match plain_feed(alloc, bytes) {
        Ok(feed) => add_other("plain", of_feed(alloc, feed)?.as_str(), whole, into),
        Err(PlainFault::Meaningless) if whole.starts_with("version ") => add_line(
            "plain none",
            into,
        ),
        Err(PlainFault::Meaningless) => Ok(()),
        Err(PlainFault::Memory) => Err(AllocError),
    }
}

// Adds what is read in two pieces, where it isn't the same, at any cut of a short feed.
fn add_cuts(alloc: Global, bytes: &[u8], whole: &str, into: &mut String) -> Result<(), AllocError> {
    if bytes.len() > MOST_CUT {
        return Ok(());
    }
    for cut in 0..bytes.len() {
        add_other(
            "two pieces",
            by_cut(alloc, bytes, cut)?.as_str(),
            whole,
            into,
        )?;
    }
    Ok(())
}

fn add_pieces(
    alloc: Global,
    bytes: &[u8],
    size: usize,
    whole: &str,
    into: &mut String,
) -> Result<(), AllocError> {
    add_other(
        "pieces",
        by_pieces(alloc, bytes, size)?.as_str(),
        whole,
        into,
    )
}

/// Adds what the bytes of a feed say; and what the plain reader and the one of pieces say, where it isn't the same.
pub fn add_feed(alloc: Global, bytes: &[u8], into: &mut String) -> Result<(), AllocError> {
    let whole = of_bytes(alloc, bytes)?;
    into.push_str(whole.as_str())?;
    add_plain(alloc, bytes, whole.as_str(), into)?;
    add_cuts(alloc, bytes, whole.as_str(), into)?;
    add_pieces(alloc, bytes, 1, whole.as_str(), into)?;
    add_pieces(alloc, bytes, 7, whole.as_str(), into)?;
    add_pieces(alloc, bytes, 4_096, whole.as_str(), into)
}

// Adds what a front of the bytes says, where the one before said something else.
fn add_front(
    alloc: Global,
    front: &[u8],
    before: &str,
    into: &mut String,
) -> Result<String, AllocError> {
    let whole = of_bytes(alloc, front)?;
    if whole.as_str() != before {
        let line = format!(in alloc; "from {} ", front.len())?;
        into.push_str(line.as_str())?;
        into.push_str(whole.as_str())?;
    }
    add_plain(alloc, front, whole.as_str(), into)?;
    Ok(whole)
}

/// Adds from which length on what a front of the bytes says.
pub fn add_feed_fronts(alloc: Global, bytes: &[u8], into: &mut String) -> Result<(), AllocError> {
    let mut before = String::new(alloc);
    for end in 0..=bytes.len() {
        let (front, _) = bytes.split_at(end);
        before = add_front(alloc, front, before.as_str(), into)?;
    }
    Ok(())
}
