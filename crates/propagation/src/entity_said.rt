//! What an entity that isn't passed says before the feed's header is known.
use gw_base::{Boxed, TripUpdate};
use journey_model::{DatedReading, Fault};

/// What an entity that isn't passed says before the feed's header is known (GTFS Realtime reference, FeedMessage).
#[derive(Debug, Drop)]
pub enum EntitySaid {
    /// A reading, recorded by the update's own timestamp alone.
    Given(DatedReading),
    /// Why the update is set aside.
    Aside(Fault),
    /// A reading in whose place a later one of the same journey stands: it was taken, and gives nothing any more.
    Replaced,
    /// The update, which names no service day and so waits for the header's timestamp.
    Waits(Boxed<TripUpdate>),
}
