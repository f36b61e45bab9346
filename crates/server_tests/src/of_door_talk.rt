//! Requests read off a door in memory, in pieces of one byte and of many.
ghost use Rattle.std.specs.Prelude.{◌≡◌, ◌≤◌, false};

use door_talk::*;
use gw_base::{Bytes, Door, Kind, List, MemoryDoor, Moment};
use http_talk::{HeadReader, Refusal};
use std::alloc::Global;
use std::process::Abort;

/// Inputs, what they ask for, and the body of a POST: what came of one that is cut stays.
static INPUTS: [(&[u8], Asked, &[u8]); 2] = [
    (
        b"\r\nPOST /siri/et HTTP/1.1\r\nContent-Length: 4\r\n\r\nbodyand more",
        Asked::Post(Kind::Estimated),
        b"body",
    ),
    (
        b"POST /gtfs-rt HTTP/1.1\r\nContent-Length: 10\r\n\r\n123456789",
        Asked::Refused(Refusal::Cut),
        b"123456789",
    ),
];

// What the next connection asks for. Over any door, so that what a door in memory does isn't in the goals.
fn asks_at<D: Door>(rt: &impl Abort, alloc: Global, door: &mut D, body: &mut Bytes) -> Option<Asked>
    requires { (D.beside door.old).present ≡ false }
{
    let mut reader = HeadReader::make(alloc).expect(rt, "memory");
    let moment = Moment::new(0).expect(rt, "a moment");
    match door.next() {
        Ok(true) => Some(read_request(alloc, &mut reader, &(), moment, body, door)),
        Ok(false) => None,
        Err(_) => None,
    }
}

// What one connection asks for, over reads of so many bytes of which those with these numbers fail.
fn asks(
    rt: &impl Abort,
    alloc: Global,
    input: &[u8],
    most: u64,
    fails: List<u64>,
    body: &mut Bytes,
) -> Option<Asked>
    requires { 1 ≤ most }
{
    let mut inputs = List::new(alloc);
    let added = inputs.push(Bytes::copied(alloc, input).expect(rt, "memory"));
    assert!(rt; added.is_ok());
    let made = MemoryDoor::make(alloc, inputs, 0, most, fails);
    asks_at(rt, alloc, &mut made.expect(rt, "memory"), body)
}

// Tries an input over reads of so many bytes.
fn try_input(rt: &impl Abort, alloc: Global, row: &(&[u8], Asked, &[u8]), most: u64)
    requires { 1 ≤ most }
{
    let mut body = Bytes::new(alloc);
    let asked = asks(rt, alloc, row.0, most, List::new(alloc), &mut body);
    assert_eq!(rt; asked, Some(row.1));
    assert_eq!(rt; body.as_slice(), row.2);
}

// Each input asks for that in pieces of so many bytes.
fn try_each(rt: &impl Abort, alloc: Global, rows: &[(&[u8], Asked, &[u8])], most: u64)
    requires { 1 ≤ most }
{
    for row in rows {
        try_input(rt, alloc, row, most);
    }
}

#[test]
fn an_input_asks_for_the_same_in_any_pieces(rt: HostRuntime) {
    try_each(&rt, rt.alloc(), &INPUTS, 1);
    try_each(&rt, rt.alloc(), &INPUTS, 7);
    try_each(&rt, rt.alloc(), &INPUTS, 4096);
}

#[test]
fn a_failed_read_loses_the_connection(rt: HostRuntime) {
    let alloc = rt.alloc();
    let mut fails = List::new(alloc);
    assert!(rt; fails.push(3).is_ok());
    let mut body = Bytes::new(alloc);
    let asked = asks(
        &rt,
        alloc,
        b"GET /gtfs-rt HTTP/1.1\r\n\r\n",
        1,
        fails,
        &mut body,
    );
    assert_eq!(rt; asked, Some(Asked::Lost));
}
