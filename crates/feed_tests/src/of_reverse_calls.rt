//! A feed of one trip that is a minute late, over the sample folder: its delivery and its report.
use crate::late::late_feed;
use gw_base::{Bytes, Moment};
use journey_model::Context;
use propagation::readings_of;
use reverse_calls::{siri_of, siri_of_readings};
use std::alloc::Global;
use test_folder::{paris, sample, window};

// The delivery, made by hand from SIRI's members.
const DELIVERY: &[u8] =
    b"{\"Siri\":{\"ServiceDelivery\":{\"EstimatedTimetableDelivery\":[{\"EstimatedJourneyVersionFrame\":[{\
      \"EstimatedVehicleJourney\":[{\"Cancellation\":false,\
      \"EstimatedCalls\":{\"EstimatedCall\":[{\"AimedArrivalTime\":\"2024-05-01T06:00:00Z\",\
      \"AimedDepartureTime\":\"2024-05-01T06:00:00Z\",\"ExpectedArrivalTime\":\"2024-05-01T06:01:00Z\",\
      \"ExpectedDepartureTime\":\"2024-05-01T06:01:00Z\",\"Order\":1,\"StopPointRef\":\"A\"},\
      {\"AimedArrivalTime\":\"2024-05-01T06:10:00Z\",\"AimedDepartureTime\":\"2024-05-01T06:11:00Z\",\
      \"ExpectedArrivalTime\":\"2024-05-01T06:11:00Z\",\"ExpectedDepartureTime\":\"2024-05-01T06:12:00Z\",\
      \"Order\":2,\"StopPointRef\":\"B\"},{\"AimedArrivalTime\":\"2024-05-01T06:20:00Z\",\
      \"AimedDepartureTime\":\"2024-05-01T06:20:00Z\",\"ExpectedArrivalTime\":\"2024-05-01T06:21:00Z\",\
      \"ExpectedDepartureTime\":\"2024-05-01T06:21:00Z\",\"Order\":3,\"StopPointRef\":\"C\"}]},\
      \"FramedVehicleJourneyRef\":{\"DataFrameRef\":\"2024-05-01\",\"DatedVehicleJourneyRef\":\"T1\"},\
      \"IsCompleteStopSequence\":true,\"LineRef\":\"R1\",\
      \"RecordedAtTime\":\"2024-05-01T06:00:00Z\"}],\"RecordedAtTime\":\"2024-05-01T06:00:00Z\"}],\
      \"ResponseTimestamp\":\"2024-05-01T06:00:00Z\",\"version\":\"2.0\"}],\
      \"ResponseTimestamp\":\"2024-05-01T06:00:00Z\"}}}";

// The second of the delivery, 2024-05-01T06:00:00Z.
const AT: i64 = 1_714_543_200;

// The delivery of the feed, and how many journeys are taken.
fn delivered(alloc: Global, context: &Context<'_>) -> Option<(Bytes, u64)> {
    let feed = late_feed(alloc)?;
    let at = Moment::new(AT)?;
    match siri_of(alloc, &feed, context, at) {
        Ok((text, report)) => Some((text, report.taken)),
        Err(_) => None,
    }
}

// The delivery of the feed's readings.
fn delivered_of_readings(alloc: Global, context: &Context<'_>) -> Option<Bytes> {
    let feed = late_feed(alloc)?;
    let at = Moment::new(AT)?;
    match readings_of(alloc, &feed, context) {
        Ok(reading) => siri_of_readings(alloc, context, &reading, at).ok(),
        Err(_) => None,
    }
}

#[test]
fn a_late_trip_is_delivered(rt: HostRuntime) {
    let alloc = rt.alloc();
    let zone = paris().expect(&rt, "a zone");
    let context = Context {
        table: &sample(alloc).expect(&rt, "a timetable"),
        zone: &zone,
        window: &window(&zone, 2).expect(&rt, "a window"),
    };
    let (text, taken) = delivered(alloc, &context).expect(&rt, "a delivery");
    assert_eq!(rt; (text.as_slice(), taken), (DELIVERY, 1));
    let again = delivered_of_readings(alloc, &context).expect(&rt, "a delivery");
    assert_eq!(rt; again.as_slice(), DELIVERY);
}
