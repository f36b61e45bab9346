//! The messages of GTFS Realtime 2.0 in protobuf's encoding, as the crates above have them: those of `feed_writing`
//! and of `feed_reading`, on which it stands and which don't know each other, and what holds of both. Its point is
//! `a_written_feed_is_meant_law`, that what is written means what it was written from, and clause `again` of
//! `read_feed`, that it is read again as that.
#![tactic(auto)]

mod laws;
mod reading;
mod writing;

pub use feed_reading::{
    Body, FeedFault, FeedHead, FeedReader, HeadSoFar, PlainFault, a_fault_or_a_feed_law,
    an_entity_is_added_law, faults_are_found_field_by_field_law,
    no_fault_where_a_feed_is_meant_law, plain_feed, the_feed_is_one_law,
    what_is_missing_is_told_at_the_end_law, what_is_no_field_has_the_fault_law,
};
pub use feed_writing::HeaderBytes;
pub use laws::{a_written_feed_is_meant_law, meant_entities_make_a_feed_law};
pub use reading::read_feed;
pub use writing::{entity_bytes, header_bytes};
