//! A feed of an alert over the sample folder: its delivery of situations and its report.
use feed_messages::read_feed;
use gw_base::{Bytes, Moment};
use journey_model::Context;
use reverse_alerts::sx_of;
use std::alloc::Global;
use test_folder::{paris, sample, window};

// A problem on the route R1 from 2024-05-01T00:00:00Z on, by hand from GTFS Realtime's messages.
const FEED: &[u8] =
    b"\x0a\x05\x0a\x032.0\x12\x28\x0a\x08alert:S1\x2a\x1c\x0a\x06\x08\x80\x8c\xc6\xb1\x06\x2a\x04\x12\x02R1\x30\x03\
      \x38\x03\x52\x08\x0a\x06\x0a\x04Late";

// The delivery, by hand from SIRI's members.
const DELIVERY: &[u8] =
    b"{\"Siri\":{\"ServiceDelivery\":{\"ResponseTimestamp\":\"2024-05-01T06:00:00Z\",\
      \"SituationExchangeDelivery\":[{\"ResponseTimestamp\":\"2024-05-01T06:00:00Z\",\"Situations\":{\
      \"PtSituationElement\":[{\"Affects\":{\"Networks\":{\"AffectedNetwork\":[{\"AffectedLine\":[{\
      \"LineRef\":\"R1\"}]}]}},\"Consequences\":{\"Consequence\":[{\"Condition\":\"delayed\"}]},\
      \"CreationTime\":\"2024-05-01T06:00:00Z\",\"EquipmentReason\":\"unknown\",\
      \"SituationNumber\":\"alert:S1\",\"Summary\":\"Late\",\"ValidityPeriod\":[{\
      \"StartTime\":\"2024-05-01T00:00:00Z\"}]}]},\"version\":\"2.0\"}]}}}";

// The delivery of the feed, and how many alerts are taken.
fn delivered(alloc: Global, context: &Context<'_>) -> Option<(Bytes, u64)> {
    let feed = read_feed(alloc, FEED).ok()?;
    let at = Moment::new(1_714_543_200)?;
    match sx_of(alloc, &feed, context, at) {
        Ok((text, report)) => Some((text, report.taken)),
        Err(_) => None,
    }
}

#[test]
fn an_alert_is_delivered(rt: HostRuntime) {
    let alloc = rt.alloc();
    let zone = paris().expect(&rt, "a zone");
    let context = Context {
        table: &sample(alloc).expect(&rt, "a timetable"),
        zone: &zone,
        window: &window(&zone, 1).expect(&rt, "a window"),
    };
    let (text, taken) = delivered(alloc, &context).expect(&rt, "a delivery");
    assert_eq!(rt; (text.as_slice(), taken), (DELIVERY, 1));
}
