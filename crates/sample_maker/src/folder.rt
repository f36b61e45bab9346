//! The files of a sample's folder. The functions meet `specs/Folder.antt`.
ghost use Rattle.std.specs.Prelude.{◌≡◌, ◌++◌, ◌<◌, ◌≤◌, IfOk, OnOk};
ghost use Rattle.sample_maker.specs.Folder as spec;

use crate::writing::{clock, put, put_number};
use gw_base::Bytes;
use std::alloc::{AllocError, Global};

/// `agency.txt`.
pub(crate) fn agency(alloc: Global) -> Result<Bytes, AllocError>
    ensures { IfOk result (λ text. text ≡ spec.agency_text) }
{
    Bytes::copied(alloc, b"agency_timezone\nUTC\n")
}

/// `routes.txt`.
pub(crate) fn routes(alloc: Global) -> Result<Bytes, AllocError>
    ensures { IfOk result (λ text. text ≡ spec.routes_text) }
{
    Bytes::copied(alloc, b"route_id\nR\n")
}

/// `calendar.txt`.
pub(crate) fn calendar(alloc: Global) -> Result<Bytes, AllocError>
    ensures { IfOk result (λ text. text ≡ spec.calendar_text) }
{
    let mut text = Bytes::copied(
        alloc,
        b"service_id,monday,tuesday,wednesday,thursday,friday,saturday,sunday,start_date,end_date\n",
    )?;
    text.extend(b"S,1,1,1,1,1,1,1,20240101,20241231\n")?;
    Ok(text)
}

// Adds the line of a stop.
fn put_stop(out: &mut Bytes, place: u32) -> Result<(), AllocError>
    requires { place < 100 }
    ensures { OnOk result (out.new ≡ out.old ++ spec.stop_line place) }
{
    put_number(out, b"P", place + 1)?;
    out.extend(b"\n")
}

/// `stops.txt`, of so many stops.
#[tactic(auto, using(crate::proofs::ListLemmas::pieces))]
pub(crate) fn stops(alloc: Global, stops: u32) -> Result<Bytes, AllocError>
    requires { stops ≤ 100 }
    ensures { IfOk result (λ text. text ≡ spec.stops_text stops) }
{
    let mut text = Bytes::copied(alloc, b"stop_id\n")?;
    for place in 0..stops {
        put_stop(&mut text, place)?;
    }
    Ok(text)
}

// Adds the line of a trip.
fn put_trip(out: &mut Bytes, trip: u32) -> Result<(), AllocError>
    ensures { OnOk result (out.new ≡ out.old ++ spec.trip_line trip) }
{
    put_number(out, b"G", trip)?;
    out.extend(b",R,S\n")
}

/// `trips.txt`, of so many trips.
#[tactic(auto, using(crate::proofs::ListLemmas::pieces))]
pub(crate) fn trips(alloc: Global, trips: u32) -> Result<Bytes, AllocError>
    ensures { IfOk result (λ text. text ≡ spec.trips_text trips) }
{
    let mut text = Bytes::copied(alloc, b"trip_id,route_id,service_id\n")?;
    for trip in 0..trips {
        put_trip(&mut text, trip)?;
    }
    Ok(text)
}

/// When a trip is at the stop after so many others, in seconds of the service day.
pub(crate) fn second_at(trip: u32, place: u32) -> u32
    requires { place < 100 }
    ensures value { result ≡ spec.second_at trip place }
    ensures bound { result < 86400 }
{
    21_600 + trip % 600 * 60 + place * 120
}

// Adds the line of a stop time.
fn put_stop_time(out: &mut Bytes, trip: u32, place: u32) -> Result<(), AllocError>
    requires { place < 100 }
    ensures { OnOk result (out.new ≡ out.old ++ spec.stop_time_line trip place) }
{
    let time = clock(second_at(trip, place));
    put_number(out, b"G", trip)?;
    put_number(out, b",", place + 1)?;
    put_number(out, b",P", place + 1)?;
    put(out, b",", &time)?;
    put(out, b",", &time)?;
    out.extend(b"\n")
}

// Adds the lines of the stop times of a trip.
#[tactic(auto, using(crate::proofs::ListLemmas::pieces))]
fn put_stop_times(out: &mut Bytes, trip: u32, stops: u32) -> Result<(), AllocError>
    requires { stops ≤ 100 }
    ensures { OnOk result (out.new ≡ out.old ++ spec.stop_times_of stops trip) }
{
    for place in 0..stops {
        put_stop_time(out, trip, place)?;
    }
    Ok(())
}

/// `stop_times.txt`, of so many trips with so many stops each, by trip and then by stop.
#[tactic(auto, using(crate::proofs::ListLemmas::pieces))]
pub(crate) fn stop_times(alloc: Global, trips: u32, stops: u32) -> Result<Bytes, AllocError>
    requires { stops ≤ 100 }
    ensures { IfOk result (λ text. text ≡ spec.stop_times_text trips stops) }
{
    let mut text = Bytes::copied(
        alloc,
        b"trip_id,stop_sequence,stop_id,arrival_time,departure_time\n",
    )?;
    for trip in 0..trips {
        put_stop_times(&mut text, trip, stops)?;
    }
    Ok(text)
}
