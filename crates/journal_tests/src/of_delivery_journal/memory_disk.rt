//! The disk in memory: its record, the calls that fail, the room, and the images by number.

use super::files::disk_of;
use super::{FIRST, keep_all};
use delivery_journal::*;
use gw_base::{Failed, List};
use std::alloc::Global;
use std::process::Abort;

// The calls that the opening of an empty disk and one append make, each with its place and its count of bytes.
static CALLS: [(Op, u64, u64); 10] = [
    (Op::Sync, 0, 0),
    (Op::Len, 0, 0),
    (Op::Write, 0, 9),
    (Op::Sync, 0, 0),
    (Op::Write, 9, 13),
    (Op::Write, 22, 53),
    (Op::Write, 75, 1),
    (Op::Sync, 0, 0),
    (Op::Write, 8, 1),
    (Op::Sync, 0, 0),
];

fn each_call(rt: &impl Abort, calls: &[Call], wanted: &[(Op, u64, u64)]) {
    assert_eq!(rt; calls.len(), wanted.len());
    for (call, row) in calls.iter().zip(wanted) {
        assert_eq!(rt; (call.op, call.at, call.count), *row);
        assert!(rt; call.went);
    }
}

#[test]
fn an_append_makes_four_calls_and_two(rt: HostRuntime) {
    let mut disk = disk_of(&rt, rt.alloc(), b"", &[]);
    assert_eq!(rt; keep_all(&mut disk, &[FIRST]), Some(1));
    each_call(&rt, disk.calls(), &CALLS);
    assert_eq!(rt; disk.bytes_to_write().len(), 77);
    assert_eq!(rt; disk.image_count(), 1);
}

// Writes `abcd` behind the three bytes of a file, of which `fails` fail.
fn write_once(rt: &impl Abort, alloc: Global, fails: &[u64]) -> MemoryDisk {
    let mut disk = disk_of(rt, alloc, b"012", fails);
    let wanted = if fails.is_empty() {
        Ok(())
    } else {
        Err(Failed)
    };
    assert_eq!(rt; put(&mut disk, 3, b"abcd"), wanted);
    disk
}

// Writes the bytes at a place that is inside the file.
fn put<K: Disk>(disk: &mut K, at: u64, bytes: &[u8]) -> Result<(), Failed> {
    match disk.len() {
        Ok(len) if at <= len => disk.write_at(at, bytes),
        Ok(_) | Err(_) => Err(Failed),
    }
}

static IMAGES: [&[u8]; 6] = [b"012", b"012abcd", b"012ab", b"012....", b"012..", b"012"];

fn each_image(rt: &impl Abort, alloc: Global, disk: &MemoryDisk, images: &[&[u8]]) {
    let mut number = 0;
    for image in images {
        let made = disk.image(alloc, number, b'.').expect(rt, "memory");
        assert_eq!(rt; made.as_slice(), *image, "{number}");
        number = number.saturating_add(1);
    }
}

#[test]
fn a_write_is_torn_in_five_ways(rt: HostRuntime) {
    let alloc = rt.alloc();
    let disk = write_once(&rt, alloc, &[]);
    assert_eq!(rt; disk.file(), b"012abcd".as_slice());
    assert_eq!(rt; disk.image_count(), 5);
    each_image(&rt, alloc, &disk, &IMAGES);
}

#[test]
fn a_write_that_fails_puts_its_first_half(rt: HostRuntime) {
    let alloc = rt.alloc();
    let disk = write_once(&rt, alloc, &[2]);
    assert_eq!(rt; disk.file(), b"012ab".as_slice());
    each_image(&rt, alloc, &disk, &IMAGES);
}

#[test]
fn a_call_past_the_room_is_a_fault(rt: HostRuntime) {
    let alloc = rt.alloc();
    let made = MemoryDisk::make(alloc, b"012", 3, 4, List::new(alloc));
    let mut disk = made.expect(&rt, "memory");
    assert_eq!(rt; put(&mut disk, 3, b"abcd"), Err(Failed));
    assert_eq!(rt; put(&mut disk, 3, b"abc"), Ok(()));
    assert_eq!(rt; disk.sync(), Ok(()));
    assert_eq!(rt; disk.sync(), Err(Failed));
    assert_eq!(rt; disk.len(), Err(Failed));
    assert_eq!(rt; disk.file(), b"012abc".as_slice());
    assert_eq!(rt; disk.calls().len(), 4);
    assert_eq!(rt; disk.bytes_to_write(), b"abc".as_slice());
}
