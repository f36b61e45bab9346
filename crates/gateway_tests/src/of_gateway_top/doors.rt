//! What the tests of `serve` share: a door and a clock in memory, the server that runs over them, and the entries of
//! its log.
ghost use Rattle.std.specs.Prelude.{◌≡◌, ◌≤◌, false};

use super::runs::{call, clock_of, files_with, numbers, sink, words_of};
use gw_base::{Bytes, Entry, List, Mark, MemoryDoor};
use http_talk::{Answer, answer_head};
use std::alloc::Global;
use std::process::Abort;

// The words of a server over the sample folder, whose window stays as long as the clock is in May 2024.
const SERVE: &str =
    "serve --gtfs g --zone-rule CET-1CEST,M3.5.0,M10.5.0/3 --from 2024-05-01 --days 2 --keep 0 --listen a \
      --connections 20";

/// 2024-05-01T06:00:00Z.
pub const MAY_1: i64 = 1_714_543_200;

// The room of each connection's output.
const ROOM: u64 = 10_000;

/// An input, its moment, the mark of its entry, and the kind and the body of what it is answered.
pub type Row = (&'static [u8], i64, Mark, Answer, &'static [u8]);

/// The inputs of rows.
pub fn inputs(rt: &impl Abort, alloc: Global, rows: &[Row]) -> List<Bytes> {
    let mut list = List::new(alloc);
    for row in rows {
        let added = list.push(Bytes::copied(alloc, row.0).expect(rt, "memory"));
        assert!(rt; added.is_ok());
    }
    list
}

// The moments of rows.
fn moments(rt: &impl Abort, alloc: Global, rows: &[Row]) -> Vec<i64> {
    let mut list = Vec::new(alloc);
    for row in rows {
        assert!(rt; list.push(row.1).is_ok());
    }
    list
}

/// A door to which these inputs come, over reads and writes of so many bytes, of which those with these numbers fail.
pub fn door(
    rt: &impl Abort,
    alloc: Global,
    inputs: List<Bytes>,
    most: u64,
    fails: &[u64],
) -> MemoryDoor
    requires { 1 ≤ most }
    ensures { result.present ≡ false }
{
    let fails = numbers(alloc, fails).expect(rt, "memory");
    MemoryDoor::make(alloc, inputs, ROOM, most, fails).expect(rt, "memory")
}

/// Whether an entry has a moment, this mark, and the whole of this answer.
pub fn is_answered(entry: &Entry, mark: Mark, kind: &Answer, body: &[u8]) -> bool {
    let head = answer_head(kind, body.len() as u64);
    let output = entry.output.as_slice();
    entry.mark == mark
        && entry.moment.is_some()
        && output.starts_with(head.as_slice())
        && output.ends_with(body)
        && output.len() == head.as_slice().len() + body.len()
}

// What standard error is told with a status.
fn told_with(status: u8) -> &'static str {
    if status == 0 { "" } else { "gateway: failed\n" }
}

/// A run of a server over the sample folder, at the moments of rows, with its status; standard output got nothing, and
/// standard error what belongs to 0 or 74.
pub fn run_rows(
    rt: &impl Abort,
    alloc: Global,
    rows: &[Row],
    door: &mut MemoryDoor,
    clock_fails: &[u64],
) -> u8
    requires { door.old.present ≡ false }
{
    let moments = moments(rt, alloc, rows);
    let words = words_of(alloc, SERVE).expect(rt, "memory");
    let mut files = files_with(alloc, b"").expect(rt, "memory");
    let mut clock = clock_of(alloc, moments.as_slice(), clock_fails).expect(rt, "memory");
    let mut out = sink(alloc, 10).expect(rt, "memory");
    let mut err = sink(alloc, 1000).expect(rt, "memory");
    let ended = call(
        alloc,
        words.as_slice(),
        &mut files,
        door,
        &mut clock,
        &mut out,
        &mut err,
    );
    assert!(rt; out.written().is_empty());
    assert_eq!(rt; err.written(), told_with(ended).as_bytes());
    ended
}
