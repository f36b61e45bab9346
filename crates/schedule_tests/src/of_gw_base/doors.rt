//! A door and a clock in memory: cut reads and writes, calls that fail by number, and the log.
ghost use Rattle.std.specs.Prelude.{◌≡◌, ◌<◌, ◌≤◌, length, true, false};

use super::numbers;
use gw_base::*;
use std::alloc::Global;
use std::process::Abort;

// How many reads a visit makes at most.
const MOST_READS: usize = 16;

// What a visit met: whether the input was read to its end, and whether the answer was written.
#[derive(Clone, Copy, Debug, PartialEq, Eq)]
struct Visit {
    whole: bool,
    written: bool,
}

const ALL: Visit = Visit {
    whole: true,
    written: true,
};

const LOST: Visit = Visit {
    whole: false,
    written: true,
};

const SHORT: Visit = Visit {
    whole: true,
    written: false,
};

// Reads what is left of the present connection's input; false after a fault.
fn read_all<D: Door>(door: &mut D, buf: &mut [u8], into: &mut Bytes) -> bool
    requires present { (D.beside door.old).present ≡ true }
    requires room { 0 < length buf.old }
    ensures { (D.beside door.new).present ≡ true }
{
    for _ in 0..MOST_READS {
        match door.read(buf) {
            Ok(0) => return true,
            Ok(count) => {
                if into.extend(&buf[..count]).is_err() {
                    return false;
                }
            }
            Err(_) => return false,
        }
    }
    false
}

// Reads the next connection's input, writes the answer, and ends it; None where no connection came.
fn serve<D: Door>(
    door: &mut D,
    into: &mut Bytes,
    answer: &[u8],
    mark: Mark,
    moment: Option<Moment>,
) -> Option<Visit>
    requires { (D.beside door.old).present ≡ false }
    ensures { (D.beside door.new).present ≡ false }
{
    match door.next() {
        Ok(true) => {}
        Ok(false) => return None,
        Err(_) => return None,
    }
    let whole = read_all(door, &mut [0; 8], into);
    let written = put_all(door, answer).is_ok();
    door.finish(mark, moment);
    Some(Visit { whole, written })
}

// The inputs of two connections.
fn inputs(rt: &impl Abort, alloc: Global, first: &[u8], second: &[u8]) -> List<Bytes> {
    let mut list = List::new(alloc);
    let added = list.push(Bytes::copied(alloc, first).expect(rt, "memory"));
    assert!(rt; added.is_ok());
    let added = list.push(Bytes::copied(alloc, second).expect(rt, "memory"));
    assert!(rt; added.is_ok());
    list
}

// Whether an entry of the log has these parts.
fn is_entry(entry: &Entry, input: &[u8], mark: Mark, has_moment: bool, output: &[u8]) -> bool {
    entry.input.as_slice() == input
        && entry.mark == mark
        && entry.moment.is_some() == has_moment
        && entry.output.as_slice() == output
}

// Two connections come, of which the second sends nothing and is refused, and no third one. Over any door, so that
// what a door in memory does isn't in the goals.
fn visit_two<D: Door>(rt: &impl Abort, door: &mut D, read: &mut Bytes)
    requires { (D.beside door.old).present ≡ false }
{
    let first = serve(door, read, b"answer", Mark::Taken, Moment::new(7));
    assert_eq!(rt; first, Some(ALL));
    let second = serve(door, read, b"", Mark::Refused(404), None);
    assert_eq!(rt; second, Some(ALL));
    let third = serve(door, read, b"a", Mark::Lost, None);
    assert_eq!(rt; third, None);
}

// The log has both connections.
fn assert_two(rt: &impl Abort, log: &[Entry]) {
    match log {
        [first, second] => {
            assert!(rt; is_entry(first, b"hello", Mark::Taken, true, b"answer"));
            assert!(rt; is_entry(second, b"", Mark::Refused(404), false, b""));
        }
        _ => assert!(rt; false),
    }
}

// Both connections over reads and writes of so many bytes.
fn try_two(rt: &impl Abort, alloc: Global, most: u64)
    requires { 1 ≤ most }
{
    let coming = inputs(rt, alloc, b"hello", b"");
    let made = MemoryDoor::make(alloc, coming, 6, most, List::new(alloc));
    let mut door = made.expect(rt, "memory");
    let mut read = Bytes::new(alloc);
    visit_two(rt, &mut door, &mut read);
    assert_eq!(rt; read.as_slice(), b"hello".as_slice());
    assert_two(rt, door.log());
}

#[test]
fn connections_come_in_order_and_are_logged(rt: HostRuntime) {
    try_two(&rt, rt.alloc(), 1);
    try_two(&rt, rt.alloc(), 4096);
}

// How many bytes the first read and the first write of the next connection take.
fn first_counts<D: Door>(door: &mut D, piece: &[u8]) -> Option<(usize, usize)>
    requires absent { (D.beside door.old).present ≡ false }
    requires some { 0 < length piece.now }
{
    match door.next() {
        Ok(true) => {}
        Ok(false) => return None,
        Err(_) => return None,
    }
    let read = door.read(&mut [0; 4100]).ok()?;
    let written = door.write(piece).ok()?;
    Some((read, written))
}

// The first read and the first write take at most so many bytes.
fn try_cut(rt: &impl Abort, alloc: Global, most: u64, count: usize)
    requires { 1 ≤ most }
{
    let bytes = [7u8; 4100];
    let coming = inputs(rt, alloc, &bytes, b"");
    let made = MemoryDoor::make(alloc, coming, 4100, most, List::new(alloc));
    let mut door = made.expect(rt, "memory");
    assert_eq!(rt; first_counts(&mut door, &bytes), Some((count, count)));
}

#[test]
fn reads_and_writes_are_cut(rt: HostRuntime) {
    try_cut(&rt, rt.alloc(), 1, 1);
    try_cut(&rt, rt.alloc(), 4096, 4096);
}

// A connection of two bytes with an answer of three. Its calls are: it comes, three reads and three writes, where each
// takes one byte. A write fails without a connection.
fn try_one(
    rt: &impl Abort,
    alloc: Global,
    room: u64,
    most: u64,
    fails: &[u64],
    met: Option<Visit>,
    output: &[u8],
)
    requires { 1 ≤ most }
{
    let coming = inputs(rt, alloc, b"ab", b"");
    let made = MemoryDoor::make(alloc, coming, room, most, numbers(rt, alloc, fails));
    let mut door = made.expect(rt, "memory");
    let mut read = Bytes::new(alloc);
    let seen = serve(&mut door, &mut read, b"xyz", Mark::Shown, None);
    assert_eq!(rt; seen, met);
    match door.log() {
        [] => assert!(rt; met.is_none()),
        [entry, ..] => assert!(rt; is_entry(entry, b"ab", Mark::Shown, false, output)),
    }
    assert_eq!(rt; door.write(b"x"), Err(Failed));
}

#[test]
fn a_door_fails_where_it_is_told_to(rt: HostRuntime) {
    let alloc = rt.alloc();
    try_one(&rt, alloc, 3, 1, &[1], None, b"");
    try_one(&rt, alloc, 3, 1, &[2], Some(LOST), b"xyz");
    try_one(&rt, alloc, 3, 1, &[4], Some(LOST), b"xyz");
    try_one(&rt, alloc, 3, 1, &[6], Some(SHORT), b"x");
    try_one(&rt, alloc, 3, 1, &[8], Some(ALL), b"xyz");
    try_one(&rt, alloc, 3, 4096, &[], Some(ALL), b"xyz");
}

#[test]
fn a_write_past_the_room_fails(rt: HostRuntime) {
    let alloc = rt.alloc();
    try_one(&rt, alloc, 2, 1, &[], Some(SHORT), b"xy");
    try_one(&rt, alloc, 2, 4096, &[], Some(SHORT), b"");
}

// The seconds of the clock's next moment; None where it fails.
fn next_secs<C: Clock>(clock: &mut C) -> Option<i64> {
    match clock.now() {
        Ok(moment) => Some(moment.secs()),
        Err(_) => None,
    }
}

// The clock gives these seconds, or fails.
fn each_now<C: Clock>(rt: &impl Abort, clock: &mut C, wanted: &[Option<i64>]) {
    for secs in wanted {
        assert_eq!(rt; next_secs(clock), *secs);
    }
}

// Moments of these seconds.
fn moments(rt: &impl Abort, alloc: Global, first: i64, second: i64) -> List<Moment> {
    let mut list = List::new(alloc);
    let added = list.push(Moment::new(first).expect(rt, "a moment"));
    assert!(rt; added.is_ok());
    let added = list.push(Moment::new(second).expect(rt, "a moment"));
    assert!(rt; added.is_ok());
    list
}

#[test]
fn a_clock_gives_its_moments_and_ends(rt: HostRuntime) {
    let alloc = rt.alloc();
    let given = moments(&rt, alloc, 0, 1_714_543_200);
    let mut clock = MemoryClock::make(given, numbers(&rt, alloc, &[2]));
    let wanted = [Some(0), None, Some(1_714_543_200), None, None];
    each_now(&rt, &mut clock, &wanted);
}
