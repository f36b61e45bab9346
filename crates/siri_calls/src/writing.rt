//! Deliveries of estimated timetables, written (SIRI 2.0, EstimatedTimetableDelivery; in JSON after SIRI Lite).
//! `write_delivery` meets `specs/Written/DeliveryTree.antt`.
ghost use Rattle.std.specs.Prelude.{◌≡◌, ◌++◌, All, IfOk, OnOk};
ghost use Rattle.gw_base.specs.Moments.{IsMoment};
ghost use Rattle.journey_model.specs.Schedules.{FitsSchedule};
ghost use Rattle.siri_calls.specs.Written.DeliveryTree.{delivery_text};
ghost use Rattle.siri_calls.specs.Written.DeliveryTexts.{head_text, tail_text};

mod calls;
mod journeys;

use gw_base::{Bytes, List, Moment};
use journey_model::{Context, DatedReading};
use journeys::put_journeys;
use siri_json::put_moment;
use std::alloc::{AllocError, Global};

// Adds a delivery up to its journeys.
fn put_head(out: &mut Bytes) -> Result<(), AllocError>
    ensures { OnOk result (out.new ≡ out.old ++ head_text) }
{
    out.extend(
        b"{\"Siri\":{\"ServiceDelivery\":{\"EstimatedTimetableDelivery\":[{\"EstimatedJourneyVersionFrame\":[{\
          \"EstimatedVehicleJourney\":[",
    )
}

// Adds the moment of the frame and of both deliveries, in seconds since 1970, after the journeys.
fn put_tail(out: &mut Bytes, secs: &i64) -> Result<(), AllocError>
    requires { IsMoment secs.now }
    ensures { OnOk result (out.new ≡ out.old ++ tail_text secs.now) }
{
    put_moment(out, b",\"RecordedAtTime\":", secs)?;
    put_moment(out, b"}],\"ResponseTimestamp\":", secs)?;
    put_moment(out, b",\"version\":\"2.0\"}],\"ResponseTimestamp\":", secs)?;
    out.extend(b"}}}")
}

/// The delivery of estimated timetables that says these journeys, in their order, at that moment (SIRI 2.0,
/// EstimatedTimetableDelivery; in JSON after SIRI Lite, without blanks). A journey without a moment of recording has
/// that of the delivery. The time is linear in the text, which is all that is held.
#[tactic(auto, using(crate::proofs::Written::WrittenLemmas::delivery))]
pub fn write_delivery(
    alloc: Global,
    context: &Context<'_>,
    journeys: &[DatedReading],
    moment: Moment,
) -> Result<Bytes, AllocError>
    requires { All (λ one. FitsSchedule context.now one.trip.0 one.day one.reading) journeys.now }
    ensures text { IfOk result (λ text. text ≡ delivery_text context.now moment journeys.now) }
{
    let mut out = List::new(alloc);
    put_head(&mut out)?;
    put_journeys(&mut out, context, journeys, moment)?;
    put_tail(&mut out, &moment.secs())?;
    Ok(out)
}
