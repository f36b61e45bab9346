//! A GTFS Realtime feed becomes what it says of every stop of every journey: delays are propagated along a trip, and
//! the updates of a feed are read over a timetable. It stands on `journey_model`, which has the definitions; those of
//! a feed that is read, whole or entity by entity, are `specs/Feeds.antt` and `specs/Folding.antt`. Its point is
//! `readings_of`: the readings of a feed's journeys, or their first faults; `ReadingFold` gives the same of entities
//! that come one by one.
#![tactic(auto)]

mod dating;
mod entities;
mod entity_said;
mod events;
mod feeds;
mod folding;
mod naming;
mod place_sizes;
mod placing;
mod propagating;
mod replacing;
mod room;
mod update_fault;
mod updates;

pub use entity_said::EntitySaid;
pub use feeds::{FeedReading, readings_of};
pub use folding::ReadingFold;
pub use update_fault::UpdateFault;
pub use updates::propagate;
