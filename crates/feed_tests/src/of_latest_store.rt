//! The record of a cancelled journey over the sample folder, and which of two records counts.
use gw_base::Bytes;
use journey_model::{Context, JourneyReading, JourneyRecord};
use latest_store::{prepare_record, record_entity, wins};
use service_day::{DayForm, Instant, read_day};
use std::alloc::Global;
use test_folder::{paris, sample, window};

#[test]
fn of_two_equal_records_the_later_arrival_wins(rt: HostRuntime) {
    let first = Instant { secs: 5, nanos: 7 };
    let later = Instant { secs: 5, nanos: 8 };
    assert!(rt; wins(&first, &first));
    assert!(rt; wins(&first, &later));
    assert!(rt; !wins(&later, &first));
}

// The entity of T1, cancelled on 2024-05-01 and recorded at 06:00:00Z (made by hand from GTFS Realtime's message).
const CANCELLED: &[u8] =
    b"\x12\x27\x0a\x0b20240501:T1\x1a\x18\x0a\x10\x0a\x02T1\x1a\x0820240501\x20\x03\x20\xe0\xb4\xc7\xb1\x06";

// The entity of a trip that is cancelled on a day; None where it doesn't run on it, or the day isn't in the window.
fn cancelled(alloc: Global, context: &Context<'_>, trip: &str, day: &str) -> Option<Bytes> {
    let trip = context.table.find_trip(trip)?;
    let day = read_day(day, DayForm::Compact)?;
    if !context.table.runs(trip, day) || context.dated(trip, day).is_none() {
        return None;
    }
    let rec = JourneyRecord {
        trip,
        day,
        at: Instant {
            secs: 1_714_543_200,
            nanos: 0,
        },
        reading: JourneyReading::Cancelled,
    };
    let entity = record_entity(alloc, context, &rec).ok()?;
    let made = prepare_record(alloc, context, rec).ok()?;
    if made.entity.as_slice() != entity.as_slice() {
        return None;
    }
    Some(made.entity)
}

#[test]
fn a_record_has_its_entity(rt: HostRuntime) {
    let table = sample(rt.alloc()).expect(&rt, "a timetable");
    let zone = paris().expect(&rt, "a zone");
    let window = window(&zone, 2).expect(&rt, "a window");
    let context = Context {
        table: &table,
        zone: &zone,
        window: &window,
    };
    let bytes = cancelled(rt.alloc(), &context, "T1", "20240501").expect(&rt, "an entity");
    assert_eq!(rt; bytes.as_slice(), CANCELLED);
    assert!(rt; cancelled(rt.alloc(), &context, "T2", "20240501").is_none());
}
