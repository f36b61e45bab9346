//! Puts whose dead bytes are given back, and each call once.
ghost use Rattle.std.specs.Prelude.{◌==◌, ◌%◌};

use feed_index::{Batch, Choice, FeedIndex};
use gw_base::{List, MemorySink, Sink};
use std::alloc::AllocError;
use std::process::Abort;
use std::test::Fail;

fn put(
    index: &mut FeedIndex<u32, u8>,
    key: u32,
    value: u8,
    bytes: &[u8],
) -> Result<Option<u8>, AllocError> {
    index.prepare(1, bytes.len() as u64)?;
    Ok(index.put(key, value, bytes))
}

#[test]
fn dead_bytes_are_given_back(rt: HostRuntime) -> Result<(), Fail> {
    let piece = vec![in rt.alloc(); 7u8; 40_000]?;
    let mut index = FeedIndex::make(rt.alloc());
    for dead in [0, 40_000, 80_000, 0] {
        put(&mut index, 3, 1, &piece)?;
        assert_eq!(rt; index.pool().dead(), dead);
        assert_eq!(rt; index.total_bytes(), 40_000);
    }
    Ok(())
}

// A value passes where it is odd.
struct Odd;

impl Choice<u8> for Odd {
    ghost test = { λ _ value. value % 2 == 1 };

    fn passes(&self, value: &u8) -> bool {
        *value % 2 == 1
    }
}

// Writes the odd values over any sink, so that what one in memory does isn't in the goals.
fn put_odd<S: Sink>(rt: &impl Abort, index: &FeedIndex<u32, u8>, sink: &mut S) {
    assert!(rt; index.write(&Odd, sink).is_ok());
}

fn write_odd(rt: &impl Abort, index: &FeedIndex<u32, u8>, sink: &mut MemorySink, text: &[u8]) {
    put_odd(rt, index, sink);
    assert_eq!(rt; sink.written(), text);
}

#[test]
fn entries_are_put_found_written_and_cut(rt: HostRuntime) -> Result<(), Fail> {
    let mut index = FeedIndex::make(rt.alloc());
    for (key, value, bytes) in [(5, 1, b"five"), (2, 4, b"two "), (9, 3, b"nine")] {
        assert_eq!(rt; put(&mut index, key, value, bytes)?, None);
    }
    assert_eq!(rt; put(&mut index, 2, 7, b"2")?, Some(4));
    assert_eq!(rt; index.len(), 3);
    assert_eq!(rt; index.find(&2).ok_or("two")?.1, b"2".as_slice());
    assert!(rt; index.find(&3).is_none());
    let mut sink = MemorySink::make(rt.alloc(), 100, List::new(rt.alloc()))?;
    write_odd(&rt, &index, &mut sink, b"2fivenine");
    assert_eq!(rt; index.remove(&5), Some(1));
    assert_eq!(rt; index.len(), 2);
    index.cut_front(1);
    assert_eq!(rt; index.len(), 1);
    assert_eq!(rt; *index.at(0).0, 9);
    assert!(rt; !index.is_empty());
    Ok(())
}

fn merge(index: &mut FeedIndex<u32, u8>, batch: Batch<u32, u8>) -> Result<(), AllocError> {
    index.prepare_for(&batch)?;
    index.merge(batch);
    Ok(())
}

#[test]
fn a_batch_is_merged_at_once(rt: HostRuntime) -> Result<(), Fail> {
    let mut index = FeedIndex::make(rt.alloc());
    put(&mut index, 5, 1, b"five")?;
    put(&mut index, 7, 3, b"seven")?;
    let mut batch = Batch::new(rt.alloc());
    for (key, value, bytes) in [
        (3, 1, b"3a"),
        (9, 9, b"9a"),
        (3, 5, b"3b"),
        (5, 7, b"5b"),
        (4, 1, b"4a"),
    ] {
        batch.put(key, value, bytes)?;
    }
    merge(&mut index, batch)?;
    assert_eq!(rt; index.pool().dead(), 4);
    let mut sink = MemorySink::make(rt.alloc(), 100, List::new(rt.alloc()))?;
    write_odd(&rt, &index, &mut sink, b"3b4a5bseven9a");
    Ok(())
}
