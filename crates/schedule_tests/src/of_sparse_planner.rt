//! A reading of a trip, with the updates that say it. `gateway_cases` has others.
ghost use Rattle.std.specs.Prelude.{◌≡◌, ◌≤◌, ◌∷◌, [], true, IfOk};
ghost use Rattle.timetable.specs.Limits.{id_limit};
ghost use Rattle.timetable.specs.Seen.{seen};
ghost use Rattle.journey_model.specs.Dated.{run_of};
ghost use Rattle.journey_model.specs.Places.{is_placed, reading_size};
ghost use Rattle.journey_model.specs.Readings.{are_near, fits_trip};
ghost use Rattle.journey_model.specs.declared.readings.JourneyReading.TheVariants.{Stops};
ghost use Rattle.journey_model.specs.declared.readings.StopReading.TheVariants.{Timed};

use crate::of_stop_schedule::with_stations;
use gw_base::{Event, List, StopUpdate};
use journey_model::{DatedTrip, JourneyReading, StopReading, are_of_station, place_size};
use service_day::{DayForm, read_day};
use sparse_planner::plan;
use std::alloc::{AllocError, Global};
use std::process::Abort;
use std::test::Fail;
use timetable::{StopNo, StopRow, Timetable, TripNo};

// The start of 2024-05-01 in Paris.
const START: i64 = 1_714_514_400;

// Stops A at 08:00:00, B from 08:10:00 to 08:11:00, and C at 08:20:00.
static STOPS: [StopRow; 3] = [
    StopRow {
        sequence: 10,
        stop: StopNo(0),
        arrival: 28_800,
        departure: 28_800,
    },
    StopRow {
        sequence: 20,
        stop: StopNo(1),
        arrival: 29_400,
        departure: 29_460,
    },
    StopRow {
        sequence: 30,
        stop: StopNo(2),
        arrival: 30_000,
        departure: 30_000,
    },
];

// An event with its delay and its time.
fn push_event(alloc: Global, text: &mut String, event: &Option<Event>) -> Result<(), AllocError> {
    let Some(
        Event {
            delay: Some(delay),
            time: Some(time),
        },
    ) = event
    else {
        return text.push_str(" -");
    };
    let piece = format!(in alloc; " {delay}@{time}")?;
    text.push_str(piece.as_str())
}

// Updates with their sequences, relations, arrivals, departures, and the stops to which they are assigned.
fn told(alloc: Global, updates: &[StopUpdate]) -> Result<String, AllocError> {
    let mut text = String::new(alloc);
    for update in updates {
        let piece = format!(in alloc; "|{} {}", update.sequence.unwrap_or(0), update.relation)?;
        text.push_str(piece.as_str())?;
        push_event(alloc, &mut text, &update.arrival)?;
        push_event(alloc, &mut text, &update.departure)?;
        if let Some(assigned) = &update.assigned {
            text.push_str(" ")?;
            text.push_str(assigned.as_str())?;
        }
    }
    Ok(text)
}

// The trip on that day.
fn dated(rt: &impl Abort) -> DatedTrip<'static>
    ensures start { result.start ≡ START }
    ensures stops { result.stops.now ≡ STOPS }
{
    let day = read_day("2024-05-01", DayForm::Dashed).expect(rt, "a day");
    DatedTrip {
        trip: TripNo(0),
        day,
        start: START,
        stops: &STOPS,
    }
}

// The updates that say how the trip's stops read.
fn planned(
    alloc: Global,
    table: &Timetable,
    dated: &DatedTrip<'_>,
    reading: &JourneyReading,
) -> Result<String, AllocError>
    requires { fits_trip (run_of (seen table.now) dated.now) reading.now ≡ true }
{
    let updates = plan(alloc, table, dated, reading)?;
    told(alloc, updates.as_slice())
}

// A stop at these times, at that place.
fn at(arrival: i64, departure: i64, place: u32) -> StopReading
    ensures { result ≡ Timed arrival departure (record { 0 = place }) }
{
    StopReading::Timed {
        arrival,
        departure,
        place: StopNo(place),
    }
}

// How three stops read.
fn reading(
    alloc: Global,
    first: StopReading,
    second: StopReading,
    third: StopReading,
) -> Result<JourneyReading, AllocError>
    ensures { IfOk result (λ reading. reading ≡ Stops (first ∷ second ∷ third ∷ [])) }
{
    let mut readings = List::new(alloc);
    readings.push(first)?;
    readings.push(second)?;
    readings.push(third)?;
    Ok(JourneyReading::Stops(readings))
}

// The place of a stop is no later stop than D, and is of the stop's station.
fn assert_placed(
    rt: &impl Abort,
    table: &Timetable,
    dated: &DatedTrip<'_>,
    row: &StopRow,
    reading: &StopReading,
)
    ensures placed { is_placed (run_of (seen table.now) dated.now) row.now reading.now ≡ true }
    ensures small { reading_size table.now.stops row.now reading.now ≤ id_limit }
{
    let StopReading::Timed { place, .. } = reading else {
        return;
    };
    let last = table.find_stop("D").expect(rt, "a stop");
    assert!(rt; place.0 <= last.0);
    assert!(rt; are_of_station(table, *place, row.stop));
    let _size = place_size(table, row.stop, *place);
}

// The stops read so, and these are the updates.
fn check(
    rt: &impl Abort,
    alloc: Global,
    first: StopReading,
    second: StopReading,
    third: StopReading,
    expected: &str,
) -> Result<(), AllocError>
    requires { are_near START STOPS (first ∷ second ∷ third ∷ []) ≡ true }
{
    let table = with_stations(alloc).expect(rt, "a timetable");
    let dated = dated(rt);
    assert_placed(rt, &table, &dated, &STOPS[0], &first);
    assert_placed(rt, &table, &dated, &STOPS[1], &second);
    assert_placed(rt, &table, &dated, &STOPS[2], &third);
    let reading = reading(alloc, first, second, third)?;
    let text = planned(alloc, &table, &dated, &reading)?;
    assert_eq!(rt; text.as_str(), expected);
    Ok(())
}

#[test]
fn a_delay_is_said_once(rt: HostRuntime) -> Result<(), Fail> {
    check(
        &rt,
        rt.alloc(),
        at(1_714_543_260, 1_714_543_260, 0),
        at(1_714_543_860, 1_714_543_920, 1),
        at(1_714_544_460, 1_714_544_460, 2),
        "|10 0 60@1714543260 60@1714543260",
    )?;
    Ok(())
}

#[test]
fn another_place_is_said_of_its_stop_alone(rt: HostRuntime) -> Result<(), Fail> {
    check(
        &rt,
        rt.alloc(),
        at(1_714_543_260, 1_714_543_260, 0),
        at(1_714_543_860, 1_714_543_920, 3),
        at(1_714_544_460, 1_714_544_460, 2),
        "|10 0 60@1714543260 60@1714543260|20 0 60@1714543860 60@1714543920 D",
    )?;
    Ok(())
}
