//! The items of a delivery, taken one after the other over what is kept.
pub(crate) mod journeys;
pub(crate) mod situations;
pub(crate) mod tally;
