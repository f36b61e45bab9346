//! The gateway's state: of all deliveries and feeds that were taken what is needed to serve, while the window of
//! service days rolls; the feed and the SIRI text that it serves, and the reports on what was taken and set aside.
#![tactic(auto)]

mod accepted;
mod arriving_feed;
mod before;
mod gateway;
mod items;
mod keys;
mod laws;
mod report_text;
mod reporting;
mod rolling;
mod serving;
mod setting;
mod state;
mod take;

pub use accepted::{Accepted, FeedRefusal, TakeFault};
pub use arriving_feed::FeedTaking;
pub use before::{Before, KeepFault};
pub use gateway::Gateway;
pub use keys::{Edition, JourneyKey};
pub use laws::{
    recording_decides_law, serves_what_arrived_law, the_rebuilt_feed_is_one_law,
    the_siri_text_is_one_law, what_a_body_brings_is_one_law, what_is_served_is_one_law,
};
pub use reporting::feed_report;
pub use setting::Setting;
pub use take::{Body, BodyRefusal, KeptFault};
