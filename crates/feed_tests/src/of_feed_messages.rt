//! A feed that is read whole, plainly and by pieces, and its entity that is written again.
ghost use Rattle.std.specs.Prelude.{◌≡◌, ◌+◌, ◌<◌, ◌≤◌, length, IfOk};

use crate::late::{late_bytes, late_entity, late_feed};
use feed_messages::{FeedReader, entity_bytes, plain_feed};
use gw_base::{Bytes, Feed, List};
use std::alloc::{AllocError, Global};
use std::process::Abort;
use std::test::Fail;

// The most bytes that a reader takes.
const MOST: usize = 16_777_216;

// What a feed says: its timestamp and the bytes of its entities.
type Said = (Option<u64>, Bytes);

// What a feed says that is read.
fn of_feed(alloc: Global, feed: &Feed) -> Option<Said> {
    let mut entities = List::new(alloc);
    for entity in feed.entities.as_slice() {
        let bytes = entity_bytes(alloc, entity).ok()?;
        entities.extend(bytes.as_slice()).ok()?;
    }
    Some((feed.timestamp, entities))
}

// Takes all of a piece, and adds the bytes of the entities that end in it.
fn take_piece(
    alloc: Global,
    reader: &mut FeedReader,
    piece: &[u8],
    entities: &mut Bytes,
) -> Result<(), AllocError>
    requires few { reader.old.taken + length piece.now ≤ 16777216 }
    ensures taken { IfOk result (λ _. reader.new.taken ≡ reader.old.taken + length piece.now) }
{
    let mut rest = piece;
    while !rest.is_empty() {
        let (used, given) = reader.feed(rest)?;
        let (_, after) = rest.split_at(used);
        rest = after;
        if let Some((_, entity)) = given {
            entities.extend(entity_bytes(alloc, &entity)?.as_slice())?;
        }
    }
    Ok(())
}

// What the bytes say by two pieces.
fn by_two(alloc: Global, bytes: &[u8], cut: usize) -> Option<Said> {
    if bytes.len() > MOST || cut > bytes.len() {
        return None;
    }
    let (first, second) = bytes.split_at(cut);
    let mut reader = FeedReader::make(alloc);
    let mut entities = List::new(alloc);
    take_piece(alloc, &mut reader, first, &mut entities).ok()?;
    take_piece(alloc, &mut reader, second, &mut entities).ok()?;
    let head = reader.finish().ok()?;
    Some((head.timestamp, entities))
}

// That is said by the late feed.
fn is_late(rt: &impl Abort, said: Option<Said>) {
    let (timestamp, entities) = said.expect(rt, "a feed");
    let entity = late_entity();
    assert_eq!(rt; timestamp, Some(1_714_543_200));
    assert_eq!(rt; entities.as_slice(), entity);
}

#[test]
fn a_feed_is_read_and_written(rt: HostRuntime) {
    let alloc = rt.alloc();
    let feed = late_feed(alloc).expect(&rt, "a feed");
    is_late(&rt, of_feed(alloc, &feed));
    let plain = plain_feed(alloc, late_bytes()).ok().expect(&rt, "a feed");
    is_late(&rt, of_feed(alloc, &plain));
}

#[test]
fn a_feed_cut_anywhere_is_read(rt: HostRuntime) {
    let bytes = late_bytes();
    for cut in 0..=bytes.len() {
        is_late(&rt, by_two(rt.alloc(), bytes, cut));
    }
}

// How many bytes are held after so many of the bytes.
fn held_after(alloc: Global, bytes: &[u8], count: usize) -> Option<u64> {
    if bytes.len() > MOST || count > bytes.len() {
        return None;
    }
    let (front, _) = bytes.split_at(count);
    let mut reader = FeedReader::make(alloc);
    let mut entities = List::new(alloc);
    take_piece(alloc, &mut reader, front, &mut entities).ok()?;
    Some(reader.held())
}

#[test]
fn only_bodies_are_held(rt: HostRuntime) -> Result<(), Fail> {
    let entity = late_entity();
    let mut bytes = List::new(rt.alloc());
    bytes.extend(b"\x9a\x06\xe8\x07")?;
    bytes.extend(&[0; 1_000])?;
    bytes.extend(entity)?;
    let bytes = bytes.as_slice();
    // in a field of 1,000 bytes that isn't known, after it, in an entity, and after that
    for (count, held) in [(500, 0), (1_004, 0), (1_026, 20), (1_069, 0)] {
        assert_eq!(rt; held_after(rt.alloc(), bytes, count), Some(held));
    }
    Ok(())
}
