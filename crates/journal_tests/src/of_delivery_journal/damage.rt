//! Files that are damaged at the first, a middle or the last record, and files that only look so.

use super::files::{AFTER_ONE, disk_of};
use super::{FIRST, Row, opened};
use delivery_journal::OpenFault;
use gw_base::{Bytes, Kind};
use std::alloc::{AllocError, Global};
use std::process::Abort;

const LAST: i64 = 253_370_764_799;

static ROWS: [Row; 3] = [
    (Kind::Estimated, 0, b"first"),
    (Kind::Situations, LAST, b"second"),
    (Kind::Feed, 1_714_543_200, b"third"),
];

/// A journal with these three bodies, whose gates stand at 8, 27 and 47, and the closed one at 66.
const THREE: &[u8] = b"GWJRNL01\
    \x01\x01\x00\x00\x00\x00\x00\x00\x00\x00\x00\x00\x00\x05first\
    \x01\x02\x00\x00\x00\x3a\xfe\x13\x0d\xff\x00\x00\x00\x06second\
    \x01\x03\x00\x00\x00\x00\x66\x31\xda\x60\x00\x00\x00\x05third\
    \x00";

// A place, the bytes that are put there, how many of the three bodies are left, and what opening the file answers.
type Change = (usize, &'static [u8], usize, Result<u64, OpenFault>);

const CHANGES: &[Change] = &[
    (0, b"G", 3, Ok(66)),
    (0, b"g", 0, Err(OpenFault::NotJournal)),
    (7, b"2", 0, Err(OpenFault::NotJournal)),
    // A gate is closed by 0 alone.
    (8, b"\x00", 0, Ok(8)),
    (27, b"\x00", 1, Ok(27)),
    (47, b"\x00", 2, Ok(47)),
    (8, b"\x02", 3, Ok(66)),
    (27, b"\x80", 3, Ok(66)),
    (47, b"\xff", 3, Ok(66)),
    // A kind is 1, 2 or 3.
    (9, b"\x00", 0, Err(OpenFault::Damaged(8))),
    (28, b"\x04", 0, Err(OpenFault::Damaged(27))),
    (48, b"\xff", 0, Err(OpenFault::Damaged(47))),
    // A moment is at most the last second of 9998.
    (
        10,
        b"\x00\x00\x00\x3a\xfe\x13\x0e\x00",
        0,
        Err(OpenFault::Damaged(8)),
    ),
    (
        29,
        b"\x00\x00\x00\x3a\xfe\x13\x0e\x00",
        0,
        Err(OpenFault::Damaged(27)),
    ),
    (
        49,
        b"\x00\x00\x00\x3a\xfe\x13\x0e\x00",
        0,
        Err(OpenFault::Damaged(47)),
    ),
    (
        10,
        b"\x80\x00\x00\x00\x00\x00\x00\x00",
        0,
        Err(OpenFault::Damaged(8)),
    ),
    (
        29,
        b"\xff\xff\xff\xff\xff\xff\xff\xff",
        0,
        Err(OpenFault::Damaged(27)),
    ),
    (
        49,
        b"\x7f\xff\xff\xff\xff\xff\xff\xff",
        0,
        Err(OpenFault::Damaged(47)),
    ),
    // A body ends inside the file.
    (18, b"\x00\x00\x00\x2e", 0, Err(OpenFault::Damaged(8))),
    (37, b"\x00\x00\x00\x1b", 0, Err(OpenFault::Damaged(27))),
    (57, b"\x00\x00\x00\x07", 0, Err(OpenFault::Damaged(47))),
    (18, b"\x01\x00\x00\x00", 0, Err(OpenFault::Damaged(8))),
    (37, b"\x01\x00\x00\x01", 0, Err(OpenFault::Damaged(27))),
    (57, b"\xff\xff\xff\xff", 0, Err(OpenFault::Damaged(47))),
    // Behind it there is a gate.
    (18, b"\x00\x00\x00\x2d", 0, Err(OpenFault::Damaged(67))),
    (37, b"\x00\x00\x00\x1a", 0, Err(OpenFault::Damaged(67))),
    (57, b"\x00\x00\x00\x06", 0, Err(OpenFault::Damaged(67))),
    (66, b"\x01", 0, Err(OpenFault::Damaged(66))),
    (66, b"\xff", 0, Err(OpenFault::Damaged(66))),
    // A shorter body has a gate that isn't one.
    (18, b"\x00\x00\x00\x04", 0, Err(OpenFault::Damaged(26))),
    (57, b"\x00\x00\x00\x04", 0, Err(OpenFault::Damaged(65))),
    // Behind the closed gate anything stands.
    (67, b"garbage", 3, Ok(66)),
    (67, b"\x01\x01\x00", 3, Ok(66)),
    (
        67,
        b"\x00\x00\x00\x00\x00\x00\x00\x00\x00\x00\x00\x00\x00\x00\x00\x00",
        3,
        Ok(66),
    ),
    (66, b"\x00\x01", 3, Ok(66)),
    // An open gate at the end begins a record.
    (
        66,
        b"\x02\x01\x00\x00\x00\x00\x00\x00\x00\x00\x00\x00\x00\x00",
        0,
        Err(OpenFault::Damaged(80)),
    ),
    (
        66,
        b"\x02\x01\x00\x00\x00\x00\x00\x00\x00\x00\x00\x00\x00\x01\x00",
        0,
        Err(OpenFault::Damaged(81)),
    ),
    (
        66,
        b"\x02\x01\x00\x00\x00\x00\x00\x00\x00\x00\x00\x00\x00\x01",
        0,
        Err(OpenFault::Damaged(66)),
    ),
];

fn changes() -> &'static [Change] {
    CHANGES
}

// The file with the bytes at their place, over what stands there and past its end.
fn changed(alloc: Global, file: &[u8], at: usize, bytes: &[u8]) -> Result<Bytes, AllocError> {
    let (front, behind) = file.split_at(at.min(file.len()));
    let (_, rest) = behind.split_at(bytes.len().min(behind.len()));
    let mut made = Bytes::copied(alloc, front)?;
    made.extend(bytes)?;
    made.extend(rest)?;
    Ok(made)
}

// What opening a file answers: the place of the closed gate, if it gives these bodies.
fn answer(
    rt: &impl Abort,
    alloc: Global,
    file: &[u8],
    rows: &[Row],
) -> Result<Option<u64>, OpenFault> {
    opened(alloc, &mut disk_of(rt, alloc, file, &[]), rows)
}

fn try_change(rt: &impl Abort, alloc: Global, change: &Change) {
    let (at, bytes, count, wanted) = *change;
    let (rows, _) = ROWS.as_slice().split_at(count.min(3));
    let file = changed(alloc, THREE, at, bytes).expect(rt, "memory");
    let answer = answer(rt, alloc, file.as_slice(), rows);
    assert_eq!(rt; answer, wanted.map(Some), "{at} {bytes:?}");
}

fn each_change(rt: &impl Abort, alloc: Global, changes: &[Change]) {
    for change in changes {
        try_change(rt, alloc, change);
    }
}

#[test]
fn damage_is_told_at_its_gate(rt: HostRuntime) {
    each_change(&rt, rt.alloc(), changes());
}

fn try_gate(rt: &impl Abort, alloc: Global, gate: u8) {
    let file = changed(alloc, THREE, 27, &[gate]).expect(rt, "memory");
    let answer = answer(rt, alloc, file.as_slice(), &ROWS);
    assert_eq!(rt; answer, Ok(Some(66)), "{gate}");
}

#[test]
fn each_gate_but_0_is_open(rt: HostRuntime) {
    for gate in 1..=255 {
        try_gate(&rt, rt.alloc(), gate);
    }
}

// Where a file of that length is damaged: at the first gate that isn't in it, or whose record isn't.
fn damage_of(len: usize) -> u64 {
    match len {
        0..27 => 8,
        27 => 27,
        28..47 => 27,
        47 => 47,
        48..66 => 47,
        _ => 66,
    }
}

fn try_cut(rt: &impl Abort, alloc: Global, len: usize) {
    let (front, _) = THREE.split_at(len.min(66));
    let answer = answer(rt, alloc, front, &[]);
    assert_eq!(rt; answer, Err(OpenFault::Damaged(damage_of(len))), "{len}");
}

#[test]
fn a_file_that_is_cut_short_is_damaged(rt: HostRuntime) {
    for len in 10..67 {
        try_cut(&rt, rt.alloc(), len);
    }
}

#[test]
fn the_rows_are_told_so(rt: HostRuntime) {
    let alloc = rt.alloc();
    let (short, _) = AFTER_ONE.split_at(40);
    assert_eq!(rt; answer(&rt, alloc, AFTER_ONE, &[FIRST]), Ok(Some(75)));
    assert_eq!(rt; answer(&rt, alloc, short, &[]), Err(OpenFault::Damaged(8)));
    let shut = changed(alloc, AFTER_ONE, 8, b"\0").expect(&rt, "memory");
    assert_eq!(rt; answer(&rt, alloc, shut.as_slice(), &[]), Ok(Some(8)));
    let zeros = [0u8; 10];
    assert_eq!(rt; answer(&rt, alloc, &zeros, &[]), Err(OpenFault::NotJournal));
}
