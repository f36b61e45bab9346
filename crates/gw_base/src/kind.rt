//! Which kind of body it is that arrives.

/// A body that arrives: a delivery of estimated timetables, one of situations (SIRI 2.0, ServiceDelivery), or a feed
/// (GTFS Realtime, FeedMessage).
#[derive(Clone, Copy, Debug, PartialEq, Eq)]
pub enum Kind {
    /// Estimated timetables (SIRI 2.0, EstimatedTimetableDelivery).
    Estimated,
    /// Situations (SIRI 2.0, SituationExchangeDelivery).
    Situations,
    /// A feed (GTFS Realtime, FeedMessage).
    Feed,
}
