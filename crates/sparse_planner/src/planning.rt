//! One walk over the stops of a trip with their readings. The functions meet `specs/Shortest.antt`.
ghost use Rattle.std.specs.Prelude.{◌≡◌, ◌<◌, ◌||◌, ◌-ℤ◌, not, ℤ, [], true, length, zip, IfSome, IfOk};
ghost use Rattle.std.specs.Option.{option_map_or};
ghost use Rattle.timetable.specs.Planned.{planned};
ghost use Rattle.timetable.specs.Seen.{seen};
ghost use Rattle.timetable.specs.declared.numbers.StopNo.{StopNo as Place};
ghost use Rattle.journey_model.specs.Dated.{run_of};
ghost use Rattle.journey_model.specs.Places.{are_placed, is_placed};
ghost use Rattle.journey_model.specs.Propagation.{later_by};
ghost use Rattle.journey_model.specs.Readings.{are_near, fits_trip, is_near, is_skipped};
ghost use Rattle.journey_model.specs.Times.{is_delay};
ghost use Rattle.journey_model.specs.declared.readings.StopReading.TheVariants.{Absent, Skipped, Timed};
ghost use Rattle.sparse_planner.specs.Means.{IsLeastOf, Says};
ghost use Rattle.sparse_planner.specs.Shortest as spec;

use gw_base::stop_relation::{NO_DATA, SCHEDULED, SKIPPED};
use gw_base::{Event, List, StopUpdate, Text};
use journey_model::{DatedTrip, JourneyReading, StopReading};
use std::alloc::{AllocError, Global};
use timetable::{StopNo, StopRow, Timetable};

// How a stop reads by what the stops before it supply: nothing, or the delay of a departure, in seconds, at the
// scheduled stop.
fn supplied(dated: &DatedTrip<'_>, row: &StopRow, delay: Option<i64>) -> StopReading
    requires { IfSome delay (λ delay. is_delay delay ≡ true) }
    ensures { result
        ≡ option_map_or (later_by row.now.stop (planned dated.now.start row.now)) delay Absent }
{
    let (arrival, departure) = dated.planned_times(row);
    match delay {
        Some(delay) => StopReading::Timed {
            arrival: arrival + delay,
            departure: departure + delay,
            place: row.stop,
        },
        None => StopReading::Absent,
    }
}

// Whether a stop needs an update of its own: it is skipped, or reads otherwise than what is supplied to it.
fn needs_update(reading: &StopReading, supplied: StopReading) -> bool
    ensures { result
        ≡ (is_skipped reading.now || not (spec.same_reading reading.now supplied)) }
{
    *reading == StopReading::Skipped || *reading != supplied
}

// An event with its delay and its time.
fn event(planned: i64, time: i64) -> Option<Event>
    requires { is_delay (time -ℤ planned) ≡ true }
    ensures { result ≡ spec.event planned time }
{
    Some(Event {
        delay: Some((time - planned) as i32),
        time: Some(time),
    })
}

// The id of the stop to which an update is assigned, where the place isn't the scheduled stop.
fn assigned(
    alloc: Global,
    table: &Timetable,
    row: &StopRow,
    place: StopNo,
) -> Result<Option<Text>, AllocError>
    requires { place.0 < length table.now.stops }
    ensures { IfOk result (λ id. id ≡ spec.assigned table.now.stops row.now place) }
{
    if place.0 == row.stop.0 {
        return Ok(None);
    }
    Ok(Some(Text::copied(alloc, table.stop_id(place))?))
}

// The update of a stop without times.
fn untimed(row: &StopRow, relation: i32) -> StopUpdate
    ensures { result ≡ spec.untimed row.now relation }
{
    StopUpdate {
        sequence: Some(row.sequence),
        arrival: None,
        departure: None,
        stop_id: None,
        relation,
        assigned: None,
    }
}

// The update of a stop.
fn update(
    alloc: Global,
    table: &Timetable,
    dated: &DatedTrip<'_>,
    row: &StopRow,
    reading: &StopReading,
) -> Result<StopUpdate, AllocError>
    requires near { is_near (planned dated.now.start row.now) reading.now ≡ true }
    requires placed { is_placed (run_of (seen table.now) dated.now) row.now reading.now ≡ true }
    ensures { IfOk result (λ update.
        update ≡ spec.update (run_of (seen table.now) dated.now) row.now reading.now) }
{
    match reading {
        StopReading::Absent => Ok(untimed(row, NO_DATA)),
        StopReading::Skipped => Ok(untimed(row, SKIPPED)),
        StopReading::Timed {
            arrival,
            departure,
            place,
        } => {
            let planned = dated.planned_times(row);
            let assigned = assigned(alloc, table, row, *place)?;
            Ok(StopUpdate {
                sequence: Some(row.sequence),
                arrival: event(planned.0, *arrival),
                departure: event(planned.1, *departure),
                stop_id: None,
                relation: SCHEDULED,
                assigned,
            })
        }
    }
}

// The delay that a stop supplies to those after it: its departure's, or none where it is absent; where it is skipped,
// the one that is supplied to it.
fn handed_on(
    dated: &DatedTrip<'_>,
    row: &StopRow,
    reading: &StopReading,
    delay: Option<i64>,
) -> Option<i64>
    requires { is_near (planned dated.now.start row.now) reading.now ≡ true }
    ensures absent { reading.now ≡ Absent → result ≡ None }
    ensures skipped { reading.now ≡ Skipped → result ≡ delay }
    ensures timed { (arrival departure : ℤ) (place : Place)
        → reading.now ≡ Timed arrival departure place
        → result ≡ Some (departure -ℤ (planned dated.now.start row.now).1) }
{
    let planned = dated.planned_times(row);
    match reading {
        StopReading::Absent => None,
        StopReading::Skipped => delay,
        StopReading::Timed { departure, .. } => Some(*departure - planned.1),
    }
}

// The updates of stops that read so.
fn stop_updates(
    alloc: Global,
    table: &Timetable,
    dated: &DatedTrip<'_>,
    readings: &[StopReading],
) -> Result<List<StopUpdate>, AllocError>
    requires near { are_near dated.now.start dated.now.stops.now readings.now ≡ true }
    requires placed { are_placed (run_of (seen table.now) dated.now) dated.now.stops.now readings.now
        ≡ true }
    ensures { IfOk result (λ updates. updates ≡ spec.updates_from (run_of (seen table.now) dated.now) []
        (zip dated.now.stops.now readings.now)) }
{
    let mut updates = List::new(alloc);
    let mut delay = None;
    for (row, reading) in dated.stops.iter().zip(readings) {
        if needs_update(reading, supplied(dated, row, delay)) {
            let update = update(alloc, table, dated, row, reading)?;
            updates.push(update)?;
        }
        delay = handed_on(dated, row, reading, delay);
    }
    Ok(updates)
}

/// The shortest list of stop time updates that says how a journey reads over the trip's stops, or none for a
/// cancelled one (GTFS Realtime reference, StopTimeUpdate). Readings are at most a week from the planned times, at
/// places of the stops' stations. Err is want of memory alone.
pub fn plan(
    alloc: Global,
    table: &Timetable,
    dated: &DatedTrip<'_>,
    reading: &JourneyReading,
) -> Result<List<StopUpdate>, AllocError>
    requires { fits_trip (run_of (seen table.now) dated.now) reading.now ≡ true }
    ensures shortest { IfOk result (λ updates.
        updates ≡ spec.shortest (run_of (seen table.now) dated.now) reading.now) }
    ensures says { IfOk result (λ updates.
        Says (run_of (seen table.now) dated.now) updates reading.now) }
    ensures least { IfOk result (λ updates.
        IsLeastOf (run_of (seen table.now) dated.now) updates reading.now) }
{
    table.soundness_law();
    match reading {
        JourneyReading::Cancelled => Ok(List::new(alloc)),
        JourneyReading::Stops(readings) => {
            stop_updates(alloc, table, dated, readings.as_slice())
        }
    }
}
