//! A delivery of estimated timetables over the sample folder is read, and one is written.
use gw_base::{Bytes, Moment};
use journey_model::{Context, Fault, JourneyReading, JourneyRecord, StopReading};
use siri_calls::{Delivery, DeliveryFault, Item, read_delivery, write_delivery};
use std::alloc::{AllocError, Global};
use std::process::Abort;
use test_folder::{paris, sample, window};
use timetable::StopNo;

// A journey with a stop that is late, one that is skipped, and an extra call, and a journey of an unknown trip.
const DELIVERY: &str = concat!(
    r#"{"ServiceDelivery":{"EstimatedTimetableDelivery":[{"EstimatedJourneyVersionFrame":[{"#,
    r#""RecordedAtTime":"2024-05-01T06:00:00Z","EstimatedVehicleJourney":["#,
    r#"{"FramedVehicleJourneyRef":{"DataFrameRef":"2024-05-01","DatedVehicleJourneyRef":"T1"},"#,
    r#""EstimatedCalls":{"EstimatedCall":[{"StopPointRef":"A","ExpectedDepartureTime":"2024-05-01T08:01:00"},"#,
    r#"{"StopPointRef":"B","Cancellation":true},{"ExtraCall":true}]}},"#,
    r#"{"FramedVehicleJourneyRef":{"DataFrameRef":"2024-05-01","DatedVehicleJourneyRef":"T9"}}]}]}]}}"#,
);

// How the first journey's stops read.
const STOPS: [StopReading; 3] = [
    StopReading::Timed {
        arrival: 1_714_543_260,
        departure: 1_714_543_260,
        place: StopNo(0),
    },
    StopReading::Skipped,
    StopReading::Absent,
];

fn is_first(record: &JourneyRecord) -> bool {
    let is_at = record.at.secs == 1_714_543_200 && record.at.nanos == 0;
    let is_read = match &record.reading {
        JourneyReading::Stops(stops) => stops.as_slice() == STOPS.as_slice(),
        JourneyReading::Cancelled => false,
    };
    record.trip.0 == 0 && record.day.number() == 19_844 && is_at && is_read
}

// Whether a delivery says that.
fn is_said(delivery: &Delivery) -> bool {
    let are_said = match delivery.items.as_slice() {
        [Item::Taken(record), Item::Aside(Fault::UnknownJourney)] => is_first(record),
        _ => false,
    };
    are_said && delivery.passed == 1
}

// What a body says. Its clauses are in no caller's goals.
fn read(alloc: Global, context: &Context<'_>) -> Result<Delivery, DeliveryFault> {
    read_delivery(alloc, DELIVERY.as_bytes(), context)
}

fn write(alloc: Global, context: &Context<'_>, moment: Moment) -> Result<Bytes, AllocError> {
    write_delivery(alloc, context, &[], moment)
}

const WRITTEN: &str = concat!(
    r#"{"Siri":{"ServiceDelivery":{"EstimatedTimetableDelivery":[{"EstimatedJourneyVersionFrame":[{"#,
    r#""EstimatedVehicleJourney":[],"RecordedAtTime":"1970-01-01T00:00:00Z"}],"#,
    r#""ResponseTimestamp":"1970-01-01T00:00:00Z","version":"2.0"}],"ResponseTimestamp":"1970-01-01T00:00:00Z"}}}"#,
);

fn assert_both(rt: &impl Abort, alloc: Global, context: &Context<'_>) {
    let delivery = read(alloc, context).expect(rt, "a delivery");
    assert!(rt; is_said(&delivery));
    let moment = Moment::new(0).expect(rt, "a moment");
    let text = write(alloc, context, moment).expect(rt, "memory");
    assert_eq!(rt; text.as_slice(), WRITTEN.as_bytes());
}

#[test]
fn a_delivery_is_read_and_written(rt: HostRuntime) {
    let alloc = rt.alloc();
    let table = sample(alloc).expect(&rt, "a timetable");
    let zone = paris().expect(&rt, "a zone");
    let window = window(&zone, 2).expect(&rt, "a window");
    let context = Context {
        table: &table,
        zone: &zone,
        window: &window,
    };
    assert_both(&rt, alloc, &context);
}
