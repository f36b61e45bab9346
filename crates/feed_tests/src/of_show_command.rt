//! What `show` prints of the late feed over the sample folder.
use crate::late::late_feed;
use gw_base::{Bytes, Feed};
use journey_model::Context;
use propagation::readings_of;
use show_command::show_lines;
use std::alloc::{AllocError, Global};
use test_folder::{paris, sample, window};

const LINES: &str = "2024-05-01 T1 1 A 2024-05-01T06:01:00Z 2024-05-01T06:01:00Z\n\
    2024-05-01 T1 2 B 2024-05-01T06:11:00Z 2024-05-01T06:12:00Z\n\
    2024-05-01 T1 3 C 2024-05-01T06:21:00Z 2024-05-01T06:21:00Z\n\
    taken 1 passed 0 aside 0\n";

// What is shown of a feed.
fn lines_of(alloc: Global, context: &Context<'_>, feed: &Feed) -> Result<Bytes, AllocError> {
    let reading = readings_of(alloc, feed, context)?;
    show_lines(alloc, context, &reading)
}

#[test]
fn a_late_trip_is_shown(rt: HostRuntime) {
    let alloc = rt.alloc();
    let zone = paris().expect(&rt, "a zone");
    let context = Context {
        table: &sample(alloc).expect(&rt, "a timetable"),
        zone: &zone,
        window: &window(&zone, 2).expect(&rt, "a window"),
    };
    let feed = late_feed(alloc).expect(&rt, "a feed");
    let lines = lines_of(alloc, &context, &feed).expect(&rt, "memory");
    assert_eq!(rt; lines.as_slice(), LINES.as_bytes());
}
