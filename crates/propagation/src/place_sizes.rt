//! The bytes of the ids of the places that updates give. The functions meet `specs/Saying.antt`.
ghost use Rattle.std.specs.Prelude.{◌≡◌, ◌≤◌, length};
ghost use Rattle.timetable.specs.Limits.{id_limit};
ghost use Rattle.journey_model.specs.Places.{place_size};
ghost use Rattle.propagation.specs.Saying as spec;

use crate::placing::Prediction;
use journey_model::place_size;
use timetable::{StopNo, Timetable};

// The bytes of the id of a place, where it isn't the scheduled stop.
fn size_at(table: &Timetable, scheduled: StopNo, place: StopNo) -> u64
    requires { spec.IsNamed (length table.now.stops) scheduled.0 place.0 }
    ensures value { result ≡ place_size table.now.stops scheduled.0 place.0 }
    ensures small { result ≤ id_limit }
{
    if place.0 == scheduled.0 {
        0
    } else {
        place_size(table, scheduled, place)
    }
}

/// The bytes of the id of the place that is said of a scheduled stop, where it is another.
pub(crate) fn says_size(table: &Timetable, scheduled: StopNo, says: &Prediction) -> u64
    requires { spec.IsPlaced (length table.now.stops) scheduled.0 says.now }
    ensures value { result ≡ spec.says_size table.now.stops scheduled.0 says.now }
    ensures small { result ≤ id_limit }
{
    match says {
        Prediction::Skipped => 0,
        Prediction::NoData => 0,
        Prediction::Timed { place, .. } => size_at(table, scheduled, *place),
    }
}
