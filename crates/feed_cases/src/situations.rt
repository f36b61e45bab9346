//! What becomes of the alerts of feeds.
use crate::printing::{add_line, add_reported, add_text};
use gw_base::{Feed, Moment};
use journey_model::Context;
use reverse_alerts::{SxFault, sx_of};
use std::alloc::{AllocError, Global};

/// Adds the delivery of a feed's alerts, and its report.
pub fn add_situations(
    alloc: Global,
    context: &Context<'_>,
    moment: Moment,
    feed: &Feed,
    into: &mut String,
) -> Result<(), AllocError> {
    match sx_of(alloc, feed, context, moment) {
        Ok((text, report)) => {
            add_reported(alloc, &report, into)?;
            add_text(alloc, text.as_slice(), into)?;
            into.push_str("\n")
        }
        Err(SxFault::Differential) => add_line("Differential", into),
        Err(SxFault::Memory) => Err(AllocError),
    }
}
