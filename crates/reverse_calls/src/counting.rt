//! How many calls a delivery has. The functions meet `specs/Siri.antt`.
ghost use Rattle.std.specs.Prelude.{◌≡◌, ◌<◌, All, length};
ghost use Rattle.reverse_calls.specs.Siri.{call_count, stop_count};

use journey_model::{Context, DatedReading};

// How many calls a journey has: one for each stop of its trip, of a cancelled journey too.
fn calls_of_one(context: &Context<'_>, one: &DatedReading) -> u64
    requires { one.now.trip.0 < length context.now.table.trips }
    ensures { result ≡ stop_count context.now one.now }
{
    context.table.stops_of(one.trip).len() as u64
}

/// How many calls the delivery of these journeys has, which is counted before a byte is written; the count stays at its
/// last value.
pub(crate) fn calls_of(context: &Context<'_>, journeys: &[DatedReading]) -> u64
    requires { All (λ one. one.trip.0 < length context.now.table.trips) journeys.now }
    ensures { result ≡ call_count context.now journeys.now }
{
    let mut calls = 0u64;
    for one in journeys {
        calls = calls.saturating_add(calls_of_one(context, one));
    }
    calls
}
