//! The journeys of a sample (SIRI 2.0, EstimatedVehicleJourney), written into a delivery. The functions meet
//! `specs/Deliveries.antt`.
ghost use Rattle.std.specs.Prelude.{◌≡◌, ◌++◌, ◌+◌, ◌<◌, ◌≤◌, ◌||◌, IfOk, OnOk};
ghost use Rattle.gw_base.specs.Moments.{IsMoment};
ghost use Rattle.service_day.specs.Utc.{moment_text};
ghost use Rattle.sample_maker.specs.Deliveries as spec;
ghost use Rattle.sample_maker.specs.Draws.{after_stop, after_stops, after_trips};
ghost use Rattle.sample_maker.specs.Listed.{comma_if, following, has_some, listed};

use crate::draws::{DrawnCall, Draws};
use crate::folder::second_at;
use crate::writing::{put, put_number};
use gw_base::Bytes;
use service_day::write_moment;
use std::alloc::{AllocError, Global};

// When a trip with that delay in seconds is at the stop after so many others, in seconds since 1970.
fn expected_at(trip: u32, place: u32, draws: &Draws) -> i64
    requires { place < 100 }
    ensures value { result ≡ spec.expected_at trip place draws.now.delay }
    ensures moment { IsMoment result }
{
    1_714_521_600 + i64::from(second_at(trip, place)) + i64::from(draws.delay)
}

// A moment in seconds since 1970 as a text.
fn moment_of(secs: &i64) -> [u8; 20]
    requires { IsMoment secs.now }
    ensures { result ≡ moment_text secs.now }
{
    write_moment(*secs)
}

// Adds the times with which a call begins.
fn put_times(out: &mut Bytes, trip: u32, place: u32, draws: &Draws) -> Result<(), AllocError>
    requires { place < 100 }
    ensures { OnOk result
        (out.new ≡ out.old ++ spec.times_text (spec.expected_at trip place draws.now.delay)) }
{
    let time = moment_of(&expected_at(trip, place, draws));
    put(out, b"{\"ExpectedArrivalTime\":\"", &time)?;
    put(out, b"\",\"ExpectedDepartureTime\":\"", &time)?;
    out.extend(b"\"")
}

// Adds which stop it is, with which a call ends.
fn put_stop(out: &mut Bytes, place: u32) -> Result<(), AllocError>
    requires { place < 100 }
    ensures { OnOk result (out.new ≡ out.old ++ spec.stop_text place) }
{
    put_number(out, b",\"Order\":", place + 1)?;
    put_number(out, b",\"StopPointRef\":\"P", place + 1)?;
    out.extend(b"\"}")
}

// Adds the call of a stop that isn't served.
fn put_cancelled(out: &mut Bytes, place: u32) -> Result<(), AllocError>
    requires { place < 100 }
    ensures { OnOk result (out.new ≡ out.old ++ spec.cancelled_text place) }
{
    out.extend(b"{\"Cancellation\":true")?;
    put_stop(out, place)
}

// Adds the call of a stop at which the trip is expected.
fn put_expected(out: &mut Bytes, trip: u32, place: u32, draws: &Draws) -> Result<(), AllocError>
    requires { place < 100 }
    ensures { OnOk result
        (out.new ≡ out.old ++ spec.expected_text trip place draws.now.delay) }
{
    put_times(out, trip, place, draws)?;
    put_stop(out, place)
}

// Adds a comma, where something stands before.
fn put_comma(out: &mut Bytes, later: bool) -> Result<(), AllocError>
    ensures { OnOk result (out.new ≡ out.old ++ comma_if later) }
{
    if later {
        return out.push(b',');
    }
    Ok(())
}

// Adds a call as it was drawn, where it is one, and answers whether there is any call now.
#[tactic(auto, unfolding(crate::specs::Deliveries::calls_at, crate::specs::Listed::following))]
fn put_drawn(
    out: &mut Bytes,
    trip: u32,
    place: u32,
    draws: &Draws,
    call: &DrawnCall,
    later: bool,
) -> Result<bool, AllocError>
    requires { place < 100 }
    ensures added { OnOk result (out.new
        ≡ out.old ++ following later (spec.calls_at trip place draws.now.delay call.now)) }
    ensures any { IfOk result (λ any. any
        ≡ (has_some (spec.calls_at trip place draws.now.delay call.now) || later)) }
{
    match call {
        DrawnCall::Cancelled => {
            put_comma(out, later)?;
            put_cancelled(out, place)?;
            Ok(true)
        }
        DrawnCall::Unsaid => Ok(later),
        DrawnCall::Expected => {
            put_comma(out, later)?;
            put_expected(out, trip, place, draws)?;
            Ok(true)
        }
    }
}

// Makes the draws for the next stop and adds its call, where there is one, after a comma where another stands before.
// Answers whether there is any call now.
fn put_call(
    out: &mut Bytes,
    trip: u32,
    place: u32,
    draws: &mut Draws,
    later: bool,
) -> Result<bool, AllocError>
    requires { place < 100 }
    ensures after { OnOk result (draws.new ≡ after_stop draws.old) }
    ensures added { OnOk result (out.new
        ≡ out.old ++ following later (spec.drawn_calls trip place draws.old)) }
    ensures any { IfOk result (λ any. any
        ≡ (has_some (spec.drawn_calls trip place draws.old) || later)) }
{
    let call = draws.next_call();
    put_drawn(out, trip, place, draws, &call, later)
}

// Adds the calls of a trip, where the generator holds that, and answers what it holds afterwards.
fn put_calls(out: &mut Bytes, trip: u32, stops: u32, held: u32) -> Result<u32, AllocError>
    requires { stops ≤ 100 }
    ensures added { OnOk result (out.new ≡ out.old ++ listed (spec.calls trip held stops)) }
    ensures after { IfOk result (λ after. after ≡ (after_stops held stops).held) }
{
    let mut draws = Draws { held, delay: 0 };
    let mut later = false;
    for place in 0..stops {
        later = put_call(out, trip, place, &mut draws, later)?;
    }
    Ok(draws.held)
}

// Adds the end of a journey, after its calls.
fn put_closing(out: &mut Bytes, trip: u32) -> Result<(), AllocError>
    ensures { OnOk result (out.new ≡ out.old ++ spec.closing_text trip) }
{
    out.extend(b"]},\"FramedVehicleJourneyRef\":{\"DataFrameRef\":\"2024-05-01\"")?;
    put_number(out, b",\"DatedVehicleJourneyRef\":\"G", trip)?;
    out.extend(b"\"},\"RecordedAtTime\":\"2024-05-01T00:00:00Z\"}")
}

// Adds the journey of a trip, where the generator holds that, and answers what it holds afterwards.
#[tactic(auto, unfolding(crate::specs::Deliveries::journey_text))]
fn put_journey(out: &mut Bytes, trip: u32, stops: u32, held: u32) -> Result<u32, AllocError>
    requires { stops ≤ 100 }
    ensures added { OnOk result (out.new ≡ out.old ++ spec.journey_text stops trip held) }
    ensures after { IfOk result (λ after. after ≡ (after_stops held stops).held) }
{
    out.extend(b"{\"EstimatedCalls\":{\"EstimatedCall\":[")?;
    let after = put_calls(out, trip, stops, held)?;
    put_closing(out, trip)?;
    Ok(after)
}

// Adds the journeys of so many trips from one on, where the generator holds that, and answers what it holds afterwards.
fn put_journeys(
    out: &mut Bytes,
    stops: u32,
    from: u32,
    count: u32,
    held: u32,
) -> Result<u32, AllocError>
    requires stops { stops ≤ 100 }
    requires trips { from + count ≤ 20000 }
    ensures added { OnOk result (out.new ≡ out.old ++ listed (spec.journeys stops from held count)) }
    ensures after { IfOk result (λ after. after ≡ after_trips stops held count) }
{
    let mut after = held;
    for n in 0..count {
        put_comma(out, n > 0)?;
        after = put_journey(out, from + n, stops, after)?;
    }
    Ok(after)
}

/// The delivery of the journeys of so many trips from one on, each at so many stops, where the generator holds that;
/// and what it holds afterwards. Err for want of memory.
pub(crate) fn delivery(
    alloc: Global,
    stops: u32,
    from: u32,
    count: u32,
    held: u32,
) -> Result<(Bytes, u32), AllocError>
    requires stops { stops ≤ 100 }
    requires trips { from + count ≤ 20000 }
    ensures text { IfOk result (λ given. given.0
        ≡ spec.text_of_journeys (spec.journeys stops from held count)) }
    ensures after { IfOk result (λ given. given.1 ≡ after_trips stops held count) }
{
    let mut text = Bytes::copied(
        alloc,
        b"{\"ServiceDelivery\":{\"EstimatedTimetableDelivery\":[",
    )?;
    text.extend(b"{\"EstimatedJourneyVersionFrame\":[{\"EstimatedVehicleJourney\":[")?;
    let after = put_journeys(&mut text, stops, from, count, held)?;
    text.extend(b"]}]}]}}")?;
    Ok((text, after))
}
