//! The top call over one delivery: the feed that it makes, and its report.
use super::runs::{call, clock_of, files_with, sink, words_of};
use gw_base::{List, MemoryDoor};
use std::test::Fail;

const WORDS: &str =
    "to-gtfsrt --gtfs g --zone-rule CET-1CEST,M3.5.0,M10.5.0/3 --from 2024-05-01 --days 2 --at 2024-05-01T06:00:00Z \
      --et f";

// The journey of T1 on 2024-05-01 is cancelled.
const CANCELLED: &str = concat!(
    r#"{"ServiceDelivery":{"EstimatedTimetableDelivery":[{"EstimatedJourneyVersionFrame":[{"#,
    r#""EstimatedVehicleJourney":["#,
    r#"{"RecordedAtTime":"2024-05-01T06:00:00Z","#,
    r#""FramedVehicleJourneyRef":{"DataFrameRef":"2024-05-01","DatedVehicleJourneyRef":"T1"},"Cancellation":true}"#,
    "]}]}]}}",
);

// The feed of it (GTFS Realtime 2.0, as another writer of protobuf gives it).
const FEED: &[u8] = b"\x0a\x0d\x0a\x032.0\x10\x00\x18\xe0\xb4\xc7\xb1\x06\x12\x27\x0a\x0b20240501:\
      T1\x1a\x18\x0a\x10\x0a\x02T1\x1a\x0820240501\x20\x03\x20\xe0\xb4\xc7\xb1\x06";

#[test]
fn a_delivery_becomes_its_feed(rt: HostRuntime) -> Result<(), Fail> {
    let alloc = rt.alloc();
    let words = words_of(alloc, WORDS)?;
    let mut files = files_with(alloc, CANCELLED.as_bytes())?;
    let mut door = MemoryDoor::make(alloc, List::new(alloc), 0, 1, List::new(alloc))?;
    let mut clock = clock_of(alloc, &[], &[])?;
    let mut out = sink(alloc, 100)?;
    let mut err = sink(alloc, 100)?;
    let status = call(
        alloc,
        words.as_slice(),
        &mut files,
        &mut door,
        &mut clock,
        &mut out,
        &mut err,
    );
    assert_eq!(rt; status, 0);
    assert_eq!(rt; out.written(), FEED);
    assert_eq!(rt; err.written(), b"f taken 1 passed 0 aside 0\n".as_slice());
    Ok(())
}
