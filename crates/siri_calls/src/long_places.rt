//! The bytes of the ids of a journey's places that aren't the scheduled stops.
ghost use Rattle.std.specs.Prelude.{◌≡◌, ◌≤◌, true, length};
ghost use Rattle.timetable.specs.Limits.{id_limit};
ghost use Rattle.journey_model.specs.Places as spec;
ghost use Rattle.journey_model.specs.TripRuns.{run_over};

use journey_model::{StopReading, TripRun, place_size};
use timetable::StopRow;

// The bytes of the id of a stop's place, where the vehicle calls at another than the scheduled one.
fn reading_size(run: &TripRun<'_>, row: &StopRow, reading: &StopReading) -> u64
    requires { spec.is_placed (run_over run.now) row.now reading.now ≡ true }
    ensures value { result ≡ spec.reading_size run.now.table.now.stops row.now reading.now }
    ensures small { result ≤ id_limit }
{
    match reading {
        StopReading::Absent | StopReading::Skipped => 0,
        StopReading::Timed { place, .. } => place_size(run.table, row.stop, *place),
    }
}

/// The sum of these bytes over all stops of a trip.
pub(crate) fn places_size(run: &TripRun<'_>, readings: &[StopReading]) -> u64
    requires many { length readings.now ≡ length run.now.dated.stops.now }
    requires placed { spec.are_placed (run_over run.now) run.now.dated.stops.now readings.now ≡ true }
    ensures { result ≡ spec.readings_size run.now.table.now.stops run.now.dated.stops.now readings.now }
{
    let mut bytes = 0;
    for position in 0..readings.len() {
        bytes += reading_size(run, &run.dated.stops[position], &readings[position]);
    }
    bytes
}
