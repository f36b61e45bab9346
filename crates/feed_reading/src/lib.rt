//! What bytes mean as a feed of GTFS Realtime 2.0 in protobuf's encoding, by `specs/Tables.antt`, and the readers that
//! find it. There are three, since each is proved of what another isn't: the quick one of the feeds that it gives, but
//! not that what it refuses has a fault; the finder of the one fault, by `specs/Faults.antt`; and the plain one of all
//! bytes that mean a feed, which reads again where the quick one refuses and there is no fault. It stands on
//! `wire_fields`; how messages are written is no part of it. Its point is `read_feed`: what the bytes mean, or exactly
//! the fault of least place; `FeedReader` gives the same over any pieces.
#![tactic(auto)]

mod fault;
mod feed_reader;
mod finder;
mod laws;
mod plain;
mod plain_fault;
mod quick;
mod reading;
mod whole;

pub use fault::FeedFault;
pub use feed_reader::{Body, FeedReader, HeadSoFar};
pub use gw_base::FeedHead;
pub use laws::{
    a_fault_or_a_feed_law, an_entity_is_added_law, faults_are_found_field_by_field_law,
    no_fault_where_a_feed_is_meant_law, the_feed_is_one_law,
    what_is_missing_is_told_at_the_end_law, what_is_no_field_has_the_fault_law,
};
pub use plain::plain_feed;
pub use plain_fault::PlainFault;
pub use reading::read_feed;
