//! The SIRI delivery of a feed's alerts. The functions meet `specs/Sx.antt`.
ghost use Rattle.reverse_alerts.specs.Sx.{IsAnswer, IsFullAnswer};

use crate::sx_fault::SxFault;
use crate::texts::all_utf8_law;
use crate::writing::write_all;
use gw_base::incrementality::DIFFERENTIAL;
use gw_base::{Bytes, Feed, Moment};
use journey_model::{Context, Report};
use std::alloc::Global;

// The delivery of a feed that isn't differential, and the report on its entities.
fn sx_of_full(
    alloc: Global,
    feed: &Feed,
    context: &Context<'_>,
    moment: Moment,
) -> Result<(Bytes, Report), SxFault>
    ensures { IsFullAnswer context.now feed.now moment result }
{
    context.table.soundness_law();
    let _ = moment.secs();
    let entities = feed.entities.as_slice();
    all_utf8_law(context.table, entities);
    match write_all(alloc, context.table, moment, entities) {
        Ok(both) => Ok(both),
        Err(_) => Err(SxFault::Memory),
    }
}

/// The SIRI delivery that says at that moment what the alerts of a feed say, and the report on the feed's entities
/// (SIRI 2.0, SituationExchangeDelivery; GTFS Realtime reference, Alert). Differential exactly where the feed's
/// incrementality is 1; Memory for want of memory.
pub fn sx_of(
    alloc: Global,
    feed: &Feed,
    context: &Context<'_>,
    moment: Moment,
) -> Result<(Bytes, Report), SxFault>
    ensures { IsAnswer context.now feed.now moment result }
{
    if feed.incrementality == DIFFERENTIAL {
        return Err(SxFault::Differential);
    }
    sx_of_full(alloc, feed, context, moment)
}
