//! A delivery of each kind and a feed over the sample folder, and what is served then. `gateway_cases` has what is kept
//! of several ones.
use crate::settings::setting;
use gateway_core::{Gateway, feed_report};
use gw_base::{Bytes, List, MemorySink, Moment};
use journey_model::Report;
use std::alloc::Global;
use std::process::Abort;

// 2024-05-01T06:00:00Z.
const AT: i64 = 1_714_543_200;

// The journey of T1 is cancelled, and a situation of the route R1.
const JOURNEY: &[u8] =
    b"{\"ServiceDelivery\":{\"EstimatedTimetableDelivery\":[{\"EstimatedJourneyVersionFrame\":[{\
      \"EstimatedVehicleJourney\":[{\"FramedVehicleJourneyRef\":{\"DatedVehicleJourneyRef\":\"T1\",\
      \"DataFrameRef\":\"2024-05-01\"},\"RecordedAtTime\":\"2024-05-01T06:00:00Z\",\"Cancellation\":true}]}]}]}}";

const SITUATION: &[u8] =
    b"{\"ServiceDelivery\":{\"SituationExchangeDelivery\":[{\"Situations\":{\"PtSituationElement\":[\
      {\"Affects\":{\"Networks\":{\"AffectedNetwork\":{\"AffectedLine\":{\"LineRef\":\"R1\"}}}},\
      \"SituationNumber\":\"S2\",\"Version\":0}]}}]}}";

const TAKEN: &[u8] = b"{\"aside\":[],\"passed\":0,\"taken\":1}";

// The header, the entity of T1, and the alert of S2 (made by hand from GTFS Realtime's messages).
const FEED: &[u8] = b"\x0a\x0d\x0a\x032.0\x10\x00\x18\xe0\xb4\xc7\xb1\x06\x12\x27\x0a\x0b20240501:\
      T1\x1a\x18\x0a\x10\x0a\x02T1\x1a\x0820240501\x20\x03\x20\xe0\xb4\xc7\xb1\x06\x12\x16\x0a\x08alert:\
      S2*\x0a*\x04\x12\x02R10\x018\x08";

// A feed of a header alone, and the SIRI text of it.
const NO_ENTITY: &[u8] = b"\x0a\x05\x0a\x032.0";

const NO_JOURNEY: &[u8] =
    b"{\"Siri\":{\"ServiceDelivery\":{\"EstimatedTimetableDelivery\":[{\"EstimatedJourneyVersionFrame\":[{\
      \"EstimatedVehicleJourney\":[],\"RecordedAtTime\":\"2024-05-01T06:00:00Z\"}],\
      \"ResponseTimestamp\":\"2024-05-01T06:00:00Z\",\"version\":\"2.0\"}],\
      \"ResponseTimestamp\":\"2024-05-01T06:00:00Z\"}}}";

// A gateway over three days from 2024-05-01 on that took nothing.
fn started(rt: &impl Abort, alloc: Global) -> Gateway {
    Gateway::start(alloc, setting(rt, alloc, None)).expect(rt, "memory")
}

// The moment of the tests.
fn moment(rt: &impl Abort) -> Moment {
    Moment::new(AT).expect(rt, "a moment")
}

// The text of the report on a delivery of journeys that is taken.
fn journeys_report(rt: &impl Abort, alloc: Global, gate: &mut Gateway) -> Bytes {
    let accepted = gate.take_estimated(alloc, JOURNEY, moment(rt)).ok();
    accepted.expect(rt, "a delivery that is taken").text
}

// The text of the report on a delivery of situations that is taken.
fn situations_report(rt: &impl Abort, alloc: Global, gate: &mut Gateway) -> Bytes {
    let accepted = gate.take_situations(alloc, SITUATION, moment(rt)).ok();
    accepted.expect(rt, "a delivery that is taken").text
}

// A report says that one item was taken.
fn assert_taken(rt: &impl Abort, report: &[u8]) {
    assert_eq!(rt; report, TAKEN);
}

// A cancelled journey and a situation are taken, each with its report.
fn take_both(rt: &impl Abort, alloc: Global, gate: &mut Gateway) {
    let journeys = journeys_report(rt, alloc, gate);
    assert_taken(rt, journeys.as_slice());
    let situations = situations_report(rt, alloc, gate);
    assert_taken(rt, situations.as_slice());
}

// A feed is taken.
fn take_feed(rt: &impl Abort, alloc: Global, gate: &mut Gateway) {
    let taken = gate.take_feed(alloc, NO_ENTITY, moment(rt)).ok();
    assert!(rt; taken.is_some());
}

// The feed that is served.
fn feed_of(rt: &impl Abort, alloc: Global, gate: &Gateway) -> MemorySink {
    let mut sink = MemorySink::make(alloc, 1_000, List::new(alloc)).expect(rt, "memory");
    assert!(rt; gate.write_feed(moment(rt), &mut sink).is_ok());
    sink
}

// The SIRI text that is served.
fn siri_of(rt: &impl Abort, alloc: Global, gate: &Gateway) -> MemorySink {
    let mut sink = MemorySink::make(alloc, 1_000, List::new(alloc)).expect(rt, "memory");
    assert!(rt; gate.write_siri(&mut sink).is_ok());
    sink
}

// What was written is the feed of both.
fn assert_feed(rt: &impl Abort, written: &[u8]) {
    assert_eq!(rt; written, FEED);
}

// What was written is the SIRI text of no journey.
fn assert_siri(rt: &impl Abort, written: &[u8]) {
    assert_eq!(rt; written, NO_JOURNEY);
}

#[test]
fn deliveries_make_a_feed(rt: HostRuntime) {
    let mut gate = started(&rt, rt.alloc());
    take_both(&rt, rt.alloc(), &mut gate);
    assert_feed(&rt, feed_of(&rt, rt.alloc(), &gate).written());
}

#[test]
fn a_feed_makes_a_delivery(rt: HostRuntime) {
    let mut gate = started(&rt, rt.alloc());
    take_feed(&rt, rt.alloc(), &mut gate);
    assert_siri(&rt, siri_of(&rt, rt.alloc(), &gate).written());
}

#[test]
fn a_feed_has_its_report(rt: HostRuntime) {
    let alloc = rt.alloc();
    let report = Report {
        taken: 1,
        passed: 2,
        aside: List::new(alloc),
    };
    let lines = feed_report(alloc, "f", &report).expect(&rt, "memory");
    assert_eq!(rt;
        lines.as_slice(),
        b"f taken 1 passed 2 aside 0\n".as_slice()
    );
}
