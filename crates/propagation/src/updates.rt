//! What a trip update says of its trip on a day. The function meets `reading_said` of `journey_model`'s
//! `specs/FeedReadings.antt`.
ghost use Rattle.timetable.specs.Seen.{seen};
ghost use Rattle.journey_model.specs.Dated.{run_of};
ghost use Rattle.journey_model.specs.FeedReadings.{reading_said, stops_said};
ghost use Rattle.journey_model.specs.Updates.{places};
ghost use Rattle.propagation.specs.Answers.{Propagates};

use crate::placing::placed_all;
use crate::propagating::readings;
use crate::update_fault::UpdateFault;
use gw_base::TripUpdate;
use gw_base::trip_relation::{CANCELED, SCHEDULED};
use journey_model::{DatedTrip, Fault, JourneyReading};
use std::alloc::Global;
use timetable::Timetable;

// What the updates of the stops of a trip say.
fn stops_said(
    alloc: Global,
    table: &Timetable,
    dated: &DatedTrip<'_>,
    update: &TripUpdate,
) -> Result<JourneyReading, UpdateFault>
    ensures { let run = run_of (seen table.now) dated.now in
        Propagates (stops_said run update.now (places run update.now.updates)) result }
{
    let placed = placed_all(alloc, table, dated, update.updates.as_slice())?;
    let readings = readings(alloc, dated, placed.as_slice())?;
    Ok(JourneyReading::Stops(readings))
}

/// What a trip update says of its trip on a day (GTFS Realtime reference, TripUpdate and StopTimeUpdate): the reading
/// of each stop in order, in seconds since 1970, where a delay is carried on to the stops after; under CANCELED the
/// list isn't read. Err with the first fault of the list, or for want of memory.
pub fn propagate(
    alloc: Global,
    table: &Timetable,
    dated: &DatedTrip<'_>,
    update: &TripUpdate,
) -> Result<JourneyReading, UpdateFault>
    ensures { Propagates (reading_said (run_of (seen table.now) dated.now) update.now) result }
{
    match update.trip.relation {
        CANCELED => Ok(JourneyReading::Cancelled),
        SCHEDULED => stops_said(alloc, table, dated, update),
        relation => Err(UpdateFault::Fault(Fault::OtherRelation(relation))),
    }
}
