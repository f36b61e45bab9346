//! What a gateway answers to a body that it takes or refuses.
use feed_messages::FeedFault;
use gw_base::Bytes;
use journey_model::Report;
use siri_calls::DeliveryFault;

/// What became of a body that was taken.
#[derive(Debug, Drop)]
pub struct Accepted {
    /// How many of its items were taken and passed over, and those that were set aside.
    pub report: Report,
    /// The same as JSON, `{"aside":[{"fault":"TEXT","index":I}],"passed":P,"taken":T}`.
    pub text: Bytes,
}

/// Why a delivery is refused: it isn't JSON, it is no delivery, or for want of memory.
pub type TakeFault = DeliveryFault;

/// Why a feed is refused.
#[derive(Debug, Drop)]
pub enum FeedRefusal {
    /// Its bytes mean no feed, for this fault.
    Feed(FeedFault),
    /// It says only what has changed (GTFS Realtime, FeedHeader, DIFFERENTIAL).
    Differential,
    /// Its journeys have so many calls, more than 400,000.
    TooManyCalls(u64),
    /// Want of memory.
    Memory,
}
