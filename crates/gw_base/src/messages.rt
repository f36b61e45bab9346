//! The messages of GTFS Realtime 2.0 that are read and written, field by field. A field that is missing
//! is None or has the default of `gtfs-realtime.proto`; numbers of enums are kept as they are.
use crate::boxed::Boxed;
use crate::list::List;
use crate::text::Text;

/// A feed: its header's fields and its entities (GTFS Realtime, FeedMessage and FeedHeader).
#[derive(Debug, Drop)]
pub struct Feed {
    /// The version of the feed's specification, as `2.0`.
    pub version: Text,
    /// 0 for a full dataset, 1 for a differential one.
    pub incrementality: i32,
    /// When the feed was made, in seconds since 1970.
    pub timestamp: Option<u64>,
    /// The entities, in order.
    pub entities: List<Entity>,
}

/// What a feed says of itself, without its entities (GTFS Realtime, FeedHeader).
#[derive(Debug, Drop)]
pub struct FeedHead {
    /// The version of the feed's specification, as `2.0`.
    pub version: Text,
    /// 0 for a full dataset, 1 for a differential one.
    pub incrementality: i32,
    /// When the feed was made, in seconds since 1970.
    pub timestamp: Option<u64>,
}

/// One entity of a feed (GTFS Realtime, FeedEntity).
#[derive(Debug, Drop)]
pub struct Entity {
    /// The id, which is unique in its feed.
    pub id: Text,
    /// Whether the entity is to be deleted, in a differential feed.
    pub deleted: bool,
    /// What is known of one trip.
    pub trip_update: Option<TripUpdate>,
    /// An alert. It stands apart, since most entities have none.
    pub alert: Option<Boxed<Alert>>,
}

/// The progress of a trip (GTFS Realtime, TripUpdate).
#[derive(Debug, Drop)]
pub struct TripUpdate {
    /// Which trip it is.
    pub trip: TripDescriptor,
    /// The updates of its stops, in order.
    pub updates: List<StopUpdate>,
    /// When this was recorded, in seconds since 1970.
    pub timestamp: Option<u64>,
}

/// Which trip is meant (GTFS Realtime, TripDescriptor).
#[derive(Debug, Drop)]
pub struct TripDescriptor {
    /// The `trip_id` of the schedule.
    pub trip_id: Option<Text>,
    /// The service day, as `YYYYMMDD`.
    pub start_date: Option<Text>,
    /// SCHEDULED 0, ADDED 1, UNSCHEDULED 2, CANCELED 3; `trip_relation` names those that are read.
    pub relation: i32,
    /// The `route_id` of the schedule.
    pub route_id: Option<Text>,
}

/// What is known of one stop of a trip (GTFS Realtime, StopTimeUpdate).
#[derive(Debug, Drop)]
pub struct StopUpdate {
    /// The `stop_sequence` of the schedule.
    pub sequence: Option<u32>,
    /// The arrival.
    pub arrival: Option<Event>,
    /// The departure.
    pub departure: Option<Event>,
    /// The `stop_id` of the schedule.
    pub stop_id: Option<Text>,
    /// SCHEDULED 0, SKIPPED 1, NO_DATA 2, UNSCHEDULED 3; `stop_relation` names those that are read.
    pub relation: i32,
    /// The `stop_id` of the stop that the vehicle calls at in place of the scheduled one (GTFS Realtime,
    /// StopTimeProperties, `assigned_stop_id`).
    pub assigned: Option<Text>,
}

/// The time of an arrival or a departure (GTFS Realtime, StopTimeEvent).
#[derive(Clone, Copy, Debug, PartialEq, Eq)]
pub struct Event {
    /// Seconds after the scheduled time.
    pub delay: Option<i32>,
    /// Seconds since 1970.
    pub time: Option<i64>,
}

/// An alert (GTFS Realtime, Alert).
#[derive(Debug, Drop)]
pub struct Alert {
    /// When it is shown.
    pub periods: List<Period>,
    /// What it is about.
    pub selectors: List<Selector>,
    /// The number of its cause, 1 for an unknown one.
    pub cause: i32,
    /// The number of its effect, 8 for an unknown one.
    pub effect: i32,
    /// Its short text, in several languages.
    pub header: List<Translation>,
    /// Its long text, in several languages.
    pub description: List<Translation>,
}

/// A span of time, open where an end is missing (GTFS Realtime, TimeRange).
#[derive(Clone, Copy, Debug, PartialEq, Eq)]
pub struct Period {
    /// The first second, since 1970.
    pub start: Option<u64>,
    /// The second after the last, since 1970.
    pub end: Option<u64>,
}

/// A part of the schedule that an alert is about (GTFS Realtime, EntitySelector).
#[derive(Debug, Drop)]
pub struct Selector {
    /// The `agency_id` of the schedule.
    pub agency_id: Option<Text>,
    /// The `route_id` of the schedule.
    pub route_id: Option<Text>,
    /// The trip. It stands apart, since most selectors name none.
    pub trip: Option<Boxed<TripDescriptor>>,
    /// The `stop_id` of the schedule.
    pub stop_id: Option<Text>,
}

/// A text in one language (GTFS Realtime, TranslatedString.Translation).
#[derive(Debug, Drop)]
pub struct Translation {
    /// The text.
    pub text: Text,
    /// Its language, as a BCP 47 code.
    pub language: Option<Text>,
}
