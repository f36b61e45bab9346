//! Connections over a door in memory, one after the other: what each is answered, and its entry in the log.
ghost use Rattle.std.specs.Prelude.{◌≡◌, ◌≤◌, false};

use crate::settings::setting;
use gateway_core::Gateway;
use gateway_server::serve;
use gw_base::{Bytes, Entry, List, Mark, MemoryClock, MemoryDoor, Moment};
use http_talk::{Answer, HeadReader, answer_head};
use std::alloc::Global;
use std::process::Abort;

// The room of each connection's output.
const ROOM: u64 = 100_000;

// An input, the mark of its entry, and the kind and the body of what it is answered.
type Row = (&'static [u8], Mark, Answer, &'static [u8]);

// The SIRI text before any feed.
const NO_JOURNEY: &[u8] =
    b"{\"Siri\":{\"ServiceDelivery\":{\"EstimatedTimetableDelivery\":[{\"EstimatedJourneyVersionFrame\":[{\
      \"EstimatedVehicleJourney\":[],\"RecordedAtTime\":\"1970-01-01T00:00:00Z\"}],\
      \"ResponseTimestamp\":\"1970-01-01T00:00:00Z\",\"version\":\"2.0\"}],\
      \"ResponseTimestamp\":\"1970-01-01T00:00:00Z\"}}}";

// A delivery of the journeys T1, NOPE and T1 again, and the connections that are served around it.
static THREE: [Row; 3] = [
    (
        b"POST /siri/et HTTP/1.1\r\nHost: a\r\nContent-Length: 483\r\n\r\n\
          {\"ServiceDelivery\":{\"EstimatedTimetableDelivery\":[{\"EstimatedJourneyVersionFrame\":[{\
          \"RecordedAtTime\":\"2024-05-01T06:00:00Z\",\"EstimatedVehicleJourney\":[{\"FramedVehicleJourneyRef\":{\
          \"DataFrameRef\":\"2024-05-01\",\"DatedVehicleJourneyRef\":\"T1\"},\"Cancellation\":true},\
          {\"FramedVehicleJourneyRef\":{\"DataFrameRef\":\"2024-05-01\",\"DatedVehicleJourneyRef\":\"NOPE\"},\
          \"Cancellation\":true},{\"FramedVehicleJourneyRef\":{\"DataFrameRef\":\"2024-05-01\",\
          \"DatedVehicleJourneyRef\":\"T1\"},\"Cancellation\":true}]}]}]}}",
        Mark::Taken,
        Answer::Json,
        b"{\"aside\":[{\"fault\":\"UnknownJourney\",\"index\":1}],\"passed\":0,\"taken\":2}",
    ),
    (
        b"GET /gtfs-rt HTTP/1.0\r\n\r\n",
        Mark::Shown,
        Answer::Feed,
        b"\x0a\x0d\x0a\x032.0\x10\x00\x18\xe0\xb4\xc7\xb1\x06\x12\x27\x0a\x0b20240501:\
          T1\x1a\x18\x0a\x10\x0a\x02T1\x1a\x0820240501\x20\x03\x20\xe0\xb4\xc7\xb1\x06",
    ),
    (
        b"GET /siri/et HTTP/1.1\r\n\r\n",
        Mark::Shown,
        Answer::Json,
        NO_JOURNEY,
    ),
];

// A feed without entities.
static FEED: [Row; 1] = [(
    b"POST /gtfs-rt HTTP/1.1\r\nContent-Length: 15\r\n\r\n\
      \x0a\x0d\x0a\x032.0\x10\x00\x18\xe0\xb4\xc7\xb1\x06",
    Mark::Fed,
    Answer::Json,
    b"{\"aside\":[],\"passed\":0,\"taken\":0}",
)];

// The inputs of rows.
fn inputs(rt: &impl Abort, alloc: Global, rows: &[Row]) -> List<Bytes> {
    let mut list = List::new(alloc);
    for row in rows {
        let added = list.push(Bytes::copied(alloc, row.0).expect(rt, "memory"));
        assert!(rt; added.is_ok());
    }
    list
}

// So many times the moment of the tests, 2024-05-01T06:00:00Z.
fn moments(rt: &impl Abort, alloc: Global, count: usize) -> List<Moment> {
    let mut list = List::new(alloc);
    for _ in 0..count {
        let moment = Moment::new(1_714_543_200).expect(rt, "a moment");
        assert!(rt; list.push(moment).is_ok());
    }
    list
}

// Whether an output is that of a row.
fn is_answer(output: &[u8], row: &Row) -> bool {
    let head = answer_head(&row.2, row.3.len() as u64);
    output.starts_with(head.as_slice())
        && output.ends_with(row.3)
        && output.len() == head.as_slice().len() + row.3.len()
}

// Whether an entry is that of a row.
fn is_entry(entry: &Entry, row: &Row) -> bool {
    entry.input.as_slice() == row.0
        && entry.mark == row.1
        && entry.moment.is_some()
        && is_answer(entry.output.as_slice(), row)
}

// A door to which the connections of rows come, over reads and writes of so many bytes.
fn door(rt: &impl Abort, alloc: Global, rows: &[Row], most: u64) -> MemoryDoor
    requires { 1 ≤ most }
    ensures { result.present ≡ false }
{
    let inputs = inputs(rt, alloc, rows);
    MemoryDoor::make(alloc, inputs, ROOM, most, List::new(alloc)).expect(rt, "memory")
}

// Serves what comes to a door, at the moment of the tests, over a buffer for bodies.
fn serve_door(rt: &impl Abort, alloc: Global, door: &mut MemoryDoor, body: &mut Bytes) -> bool
    requires { door.old.present ≡ false }
{
    let mut gate = Gateway::start(alloc, setting(rt, alloc, None)).expect(rt, "memory");
    let mut reader = HeadReader::make(alloc).expect(rt, "memory");
    let mut clock = MemoryClock::make(moments(rt, alloc, 40), List::new(alloc));
    serve(alloc, &mut gate, &mut reader, body, door, &mut clock, 40).is_ok()
}

// Serves rows, and looks at each entry.
fn try_rows(rt: &impl Abort, alloc: Global, rows: &[Row], most: u64)
    requires { 1 ≤ most }
{
    let mut door = door(rt, alloc, rows, most);
    let mut body = Bytes::new(alloc);
    assert!(rt;
        serve_door(rt, alloc, &mut door, &mut body),
        "all were served"
    );
    let log = door.log();
    assert_eq!(rt; log.len(), rows.len());
    for (entry, row) in log.iter().zip(rows) {
        assert!(rt; is_entry(entry, row), "an entry of the log");
    }
}

// The room that is there for bodies once rows were served, over reads of one byte.
fn room_after(rt: &impl Abort, alloc: Global, rows: &[Row]) -> usize {
    let mut door = door(rt, alloc, rows, 1);
    let mut body = Bytes::new(alloc);
    assert!(rt;
        serve_door(rt, alloc, &mut door, &mut body),
        "all were served"
    );
    body.into_vec().capacity()
}

#[test]
fn a_delivery_has_room_for_its_length_and_a_feed_has_none(rt: HostRuntime) {
    assert_eq!(&rt; room_after(&rt, rt.alloc(), &THREE), 483);
    assert_eq!(&rt; room_after(&rt, rt.alloc(), &FEED), 0);
}

#[test]
fn each_connection_is_answered(rt: HostRuntime) {
    try_rows(&rt, rt.alloc(), &THREE, 1);
    try_rows(&rt, rt.alloc(), &THREE, 100_000);
}
