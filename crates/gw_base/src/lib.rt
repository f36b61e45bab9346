//! What every layer of the gateway stands on: texts, lists and buffers, moments, the messages of GTFS Realtime as
//! types, and the traits of the outside (files, sinks, a door of connections, a clock) with objects in memory that
//! keep what they are given. It stands on no crate of this repository. Its point is what a device promises: the
//! clauses of `Files`, `Sink`, `Door` and `Clock`, and `put_all`, which hands a whole text to a sink or tells that it
//! failed.
#![tactic(auto)]

pub mod alert_cause;
pub mod alert_effect;
mod boxed;
mod buffer;
mod clock;
mod connections;
mod door;
mod files;
pub mod incrementality;
mod kind;
mod limits;
mod list;
mod member;
mod memory_clock;
mod memory_door;
mod memory_files;
mod memory_sink;
mod messages;
mod moment;
mod required;
mod short_text;
mod sink;
pub mod stop_relation;
mod text;
pub mod trip_relation;
mod uses;
mod wire_kind;

pub use boxed::Boxed;
pub use buffer::Buf;
pub use clock::Clock;
pub use door::{Door, Entry, Mark};
pub use files::{FileFault, Files, Got};
pub use kind::Kind;
pub use limits::{BODY_LIMIT, LAST_MOMENT};
pub use list::{Bytes, List};
pub use member::Member;
pub use memory_clock::MemoryClock;
pub use memory_door::MemoryDoor;
pub use memory_files::MemoryFiles;
pub use memory_sink::MemorySink;
pub use messages::{
    Alert, Entity, Event, Feed, FeedHead, Period, Selector, StopUpdate, Translation,
    TripDescriptor, TripUpdate,
};
pub use moment::Moment;
pub use required::Required;
pub use short_text::ShortText;
pub use sink::{Failed, Sink, put_all};
pub use text::Text;
pub use wire_kind::WireKind;
