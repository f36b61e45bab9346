//! A server whose door and clock fail: a failed call costs its own connection alone, and each later one is answered for
//! what arrived by then.
use super::doors::{MAY_1, Row, door, inputs, is_answered, run_rows};
use gw_base::{Entry, Mark};
use http_talk::{Answer, Refusal, answer_head};
use std::alloc::Global;
use std::process::Abort;

// The SIRI delivery before any feed.
const EMPTY_TEXT: &[u8] =
    b"{\"Siri\":{\"ServiceDelivery\":{\"EstimatedTimetableDelivery\":[{\"EstimatedJourneyVersionFrame\":[{\
      \"EstimatedVehicleJourney\":[],\"RecordedAtTime\":\"1970-01-01T00:00:00Z\"}],\
      \"ResponseTimestamp\":\"1970-01-01T00:00:00Z\",\"version\":\"2.0\"}],\
      \"ResponseTimestamp\":\"1970-01-01T00:00:00Z\"}}}";

// The SIRI delivery of a feed of 2024-05-01T06:00:00Z by which T1 is a minute late at each stop.
const LATE_TEXT: &[u8] =
    b"{\"Siri\":{\"ServiceDelivery\":{\"EstimatedTimetableDelivery\":[{\"EstimatedJourneyVersionFrame\":[{\
      \"EstimatedVehicleJourney\":[{\"Cancellation\":false,\
      \"EstimatedCalls\":{\"EstimatedCall\":[{\"AimedArrivalTime\":\"2024-05-01T06:00:00Z\",\
      \"AimedDepartureTime\":\"2024-05-01T06:00:00Z\",\"ExpectedArrivalTime\":\"2024-05-01T06:01:00Z\",\
      \"ExpectedDepartureTime\":\"2024-05-01T06:01:00Z\",\"Order\":1,\"StopPointRef\":\"A\"},\
      {\"AimedArrivalTime\":\"2024-05-01T06:10:00Z\",\"AimedDepartureTime\":\"2024-05-01T06:11:00Z\",\
      \"ExpectedArrivalTime\":\"2024-05-01T06:11:00Z\",\"ExpectedDepartureTime\":\"2024-05-01T06:12:00Z\",\
      \"Order\":2,\"StopPointRef\":\"B\"},{\"AimedArrivalTime\":\"2024-05-01T06:20:00Z\",\
      \"AimedDepartureTime\":\"2024-05-01T06:20:00Z\",\"ExpectedArrivalTime\":\"2024-05-01T06:21:00Z\",\
      \"ExpectedDepartureTime\":\"2024-05-01T06:21:00Z\",\"Order\":3,\"StopPointRef\":\"C\"}]},\
      \"FramedVehicleJourneyRef\":{\"DataFrameRef\":\"2024-05-01\",\"DatedVehicleJourneyRef\":\"T1\"},\
      \"IsCompleteStopSequence\":true,\"LineRef\":\"R1\",\"RecordedAtTime\":\"2024-05-01T06:00:00Z\"}],\
      \"RecordedAtTime\":\"2024-05-01T06:00:00Z\"}],\"ResponseTimestamp\":\"2024-05-01T06:00:00Z\",\
      \"version\":\"2.0\"}],\"ResponseTimestamp\":\"2024-05-01T06:00:00Z\"}}}";

// A delivery by which T1 is a minute late at each stop, what is shown then, the same as a feed, and the SIRI delivery
// of it.
static ROUND: [Row; 4] = [
    (
        b"POST /siri/et HTTP/1.1\r\nContent-Length: 621\r\n\r\n\
          {\"ServiceDelivery\":{\"EstimatedTimetableDelivery\":[{\"EstimatedJourneyVersionFrame\":[{\
          \"EstimatedVehicleJourney\":[{\"RecordedAtTime\":\"2024-05-01T06:00:00Z\",\
          \"FramedVehicleJourneyRef\":{\"DataFrameRef\":\"2024-05-01\",\"DatedVehicleJourneyRef\":\"T1\"},\
          \"EstimatedCalls\":{\"EstimatedCall\":[\
          {\"StopPointRef\":\"A\",\"ExpectedArrivalTime\":\"2024-05-01T06:01:00Z\",\
          \"ExpectedDepartureTime\":\"2024-05-01T06:01:00Z\"},\
          {\"StopPointRef\":\"B\",\"ExpectedArrivalTime\":\"2024-05-01T06:11:00Z\",\
          \"ExpectedDepartureTime\":\"2024-05-01T06:12:00Z\"},\
          {\"StopPointRef\":\"C\",\"ExpectedArrivalTime\":\"2024-05-01T06:21:00Z\",\
          \"ExpectedDepartureTime\":\"2024-05-01T06:21:00Z\"}]}}]}]}]}}",
        MAY_1,
        Mark::Taken,
        Answer::Json,
        b"{\"aside\":[],\"passed\":0,\"taken\":1}",
    ),
    (
        b"GET /gtfs-rt HTTP/1.1\r\n\r\n",
        MAY_1,
        Mark::Shown,
        Answer::Feed,
        b"\n\r\n\x032.0\x10\x00\x18\xe0\xb4\xc7\xb1\x06\x12?\n\x0b20240501:T1\x1a0\n\x10\n\
          \x02T1\x1a\x0820240501 \x00\x12\x16\x08\n\
          \x12\x08\x08<\x10\x9c\xb5\xc7\xb1\x06\x1a\x08\x08<\x10\x9c\xb5\xc7\xb1\x06 \xe0\xb4\xc7\xb1\x06",
    ),
    (
        b"POST /gtfs-rt HTTP/1.1\r\nContent-Length: 80\r\n\r\n\
          \n\r\n\x032.0\x10\x00\x18\xe0\xb4\xc7\xb1\x06\x12?\n\x0b20240501:T1\x1a0\n\x10\n\
          \x02T1\x1a\x0820240501 \x00\x12\x16\x08\n\
          \x12\x08\x08<\x10\x9c\xb5\xc7\xb1\x06\x1a\x08\x08<\x10\x9c\xb5\xc7\xb1\x06 \xe0\xb4\xc7\xb1\x06",
        MAY_1,
        Mark::Fed,
        Answer::Json,
        b"{\"aside\":[],\"passed\":0,\"taken\":1}",
    ),
    (
        b"GET /siri/et HTTP/1.1\r\n\r\n",
        MAY_1,
        Mark::Shown,
        Answer::Json,
        LATE_TEXT,
    ),
];

// The feed that is shown where the delivery wasn't taken.
const NOTHING: &[u8] = b"\n\r\n\x032.0\x10\x00\x18\xe0\xb4\xc7\xb1\x06";

// How a run of these went: its status, how many connections have an entry, of how many the entry isn't the whole answer
// for what arrived by then, and whether each of those is one that a failed call may leave.
#[derive(Clone, Copy, Debug, PartialEq, Eq)]
struct Outcome {
    status: u8,
    served: usize,
    off: usize,
    are_lawful: bool,
}

// What arrived so far.
#[derive(Clone, Copy)]
struct Arrived {
    delivery: bool,
    feed: bool,
}

// The body of what a row is answered, by what arrived before it.
fn body_of(row: &Row, place: usize, arrived: Arrived) -> &'static [u8] {
    match place {
        1 if !arrived.delivery => NOTHING,
        3 if !arrived.feed => EMPTY_TEXT,
        _ => row.4,
    }
}

// Whether an entry is the whole answer.
fn is_whole(entry: &Entry, row: &Row, body: &[u8]) -> bool {
    entry.input.as_slice() == row.0 && is_answered(entry, row.2, &row.3, body)
}

// Whether an output is a prefix of an answer.
fn is_prefix(output: &[u8], kind: &Answer, body: &[u8]) -> bool {
    let head = answer_head(kind, body.len() as u64);
    let head = head.as_slice();
    if output.len() <= head.len() {
        head.starts_with(output)
    } else {
        output.starts_with(head) && body.starts_with(&output[head.len()..])
    }
}

// Whether a failed call may leave an entry: nothing is answered where a read failed, of a failed clock is told, and
// else the entry has a prefix of its answer.
fn is_lawful(entry: &Entry, row: &Row, body: &[u8]) -> bool {
    let output = entry.output.as_slice();
    match entry.mark {
        Mark::Lost => output.is_empty(),
        Mark::ClockFault => {
            entry.moment.is_none()
                && is_prefix(output, &Answer::Refused(Refusal::Clock), b"H500 Clock\n")
        }
        mark => mark == row.2 && entry.moment.is_some() && is_prefix(output, &row.3, body),
    }
}

// How a run of these rows went, by its status and its log.
fn outcome_of(status: u8, log: &[Entry], rows: &[Row]) -> Outcome {
    let mut arrived = Arrived {
        delivery: false,
        feed: false,
    };
    let mut off: usize = 0;
    let mut are_lawful = true;
    for (place, (entry, row)) in log.iter().zip(rows).enumerate() {
        let body = body_of(row, place, arrived);
        if !is_whole(entry, row, body) {
            off = off.saturating_add(1);
            are_lawful = are_lawful && is_lawful(entry, row, body);
        }
        arrived.delivery |= entry.mark == Mark::Taken;
        arrived.feed |= entry.mark == Mark::Fed;
    }
    Outcome {
        status,
        served: log.len(),
        off,
        are_lawful,
    }
}

// The rows of a round. A function, so that no caller has their text in its goals.
fn round() -> &'static [Row] {
    &ROUND
}

// A run in which these calls of the door and of the clock fail.
fn run_with(rt: &impl Abort, alloc: Global, fails: &[u64], clock_fails: &[u64]) -> Outcome {
    let rows = round();
    let mut door = door(rt, alloc, inputs(rt, alloc, rows), 100_000, fails);
    let status = run_rows(rt, alloc, rows, &mut door, clock_fails);
    outcome_of(status, door.log(), rows)
}

const UNDISTURBED: Outcome = Outcome {
    status: 0,
    served: 4,
    off: 0,
    are_lawful: true,
};

// Whether failed calls did no more than they may: each spoils a connection of its own, or ends the run between two.
fn is_at_most(went: &Outcome, faults: usize) -> bool {
    if went.status == 0 {
        went.are_lawful && went.served == 4 && went.off <= faults
    } else {
        went.are_lawful && went.status == 74 && went.served <= 4 && went.off < faults
    }
}

#[test]
fn each_call_fails_alone(rt: HostRuntime) {
    let alloc = rt.alloc();
    assert_eq!(rt; run_with(&rt, alloc, &[], &[]), UNDISTURBED);
    let mut calls: u64 = 0;
    let mut ended: usize = 0;
    for call in 1..40_u64 {
        let went = run_with(&rt, alloc, &[call], &[]);
        if went == UNDISTURBED {
            break;
        }
        assert!(rt; is_at_most(&went, 1), "call {call}");
        // Where `next` fails no later connection is served.
        if went.status == 74 {
            assert_eq!(rt; went.served, ended);
            ended = ended.saturating_add(1);
        }
        calls = call;
    }
    assert_eq!(rt; ended, 5);
    // Five calls of next, and of each connection at least a read and two writes.
    assert!(rt; calls >= 17 && calls < 39, "calls of the door");
    for call in 1..5_u64 {
        let went = run_with(&rt, alloc, &[], &[call]);
        assert!(rt;
            went.off == 1 && is_at_most(&went, 1),
            "call {call} of the clock"
        );
    }
    assert_eq!(rt; run_with(&rt, alloc, &[], &[5]), UNDISTURBED);
}

#[test]
fn two_failed_calls_cost_no_more_than_two_connections(rt: HostRuntime) {
    let alloc = rt.alloc();
    let mut drawn: u64 = 7;
    for round in 0..60_u32 {
        drawn = drawn % 2_147_483_648 * 1_103_515_245 + 12_345;
        let first = 1 + drawn / 65_536 % 20;
        let second = first + 1 + drawn / 1_024 % 20;
        let clock = 1 + drawn / 256 % 4;
        assert!(rt;
            is_at_most(&run_with(&rt, alloc, &[first, second], &[]), 2),
            "round {round}"
        );
        assert!(rt;
            is_at_most(&run_with(&rt, alloc, &[first], &[clock]), 2),
            "round {round} with the clock"
        );
    }
}
