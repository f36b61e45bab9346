//! The texts of small samples, byte for byte as the rules give them, and how many deliveries there are.
ghost use Rattle.std.specs.Prelude.{IsSome};
ghost use Rattle.gw_base.specs.Directory.{bytes_of};
ghost use Rattle.sample_maker.specs.Folder.{folder as files_of};

mod files;
mod texts;

use files::{AGENCY, CALENDAR, ROUTES, STOP_TIMES, STOPS, TRIPS};
use gw_base::Bytes;
use sample_maker::Maker;
use std::alloc::Global;
use std::process::Abort;
use texts::{A_CALL_LEFT_OUT, A_DELAY_CARRIED_ON, A_SKIP_AND_A_DELAY};

// The next delivery of a sample.
fn next(rt: &impl Abort, alloc: Global, maker: &mut Maker) -> Option<Bytes> {
    maker.next_delivery(alloc).expect(rt, "memory")
}

// A sample has this delivery alone.
fn assert_only(rt: &impl Abort, alloc: Global, mut maker: Maker, wanted: &[u8]) {
    let text = next(rt, alloc, &mut maker).expect(rt, "a delivery");
    assert_eq!(rt; text.as_slice(), wanted);
    assert_left(rt, alloc, maker, 0);
}

// So many deliveries of a sample are left.
fn assert_left(rt: &impl Abort, alloc: Global, mut maker: Maker, count: u32) {
    for n in 0..count {
        assert!(rt; next(rt, alloc, &mut maker).is_some(), "delivery {n}");
    }
    assert!(rt; next(rt, alloc, &mut maker).is_none());
    assert!(rt; next(rt, alloc, &mut maker).is_none());
}

#[test]
fn deliveries_of_small_samples(rt: HostRuntime) {
    let alloc = rt.alloc();
    assert_only(&rt, alloc, Maker::make(0, 1, 3), A_SKIP_AND_A_DELAY);
    assert_only(&rt, alloc, Maker::make(1, 2, 2), A_CALL_LEFT_OUT);
    assert_only(&rt, alloc, Maker::make(3, 2, 2), A_DELAY_CARRIED_ON);
}

#[test]
fn deliveries_have_100_trips_each(rt: HostRuntime) {
    let alloc = rt.alloc();
    assert_left(&rt, alloc, Maker::make(2147483647, 100, 2), 1);
    assert_left(&rt, alloc, Maker::make(7, 101, 2), 2);
    assert_left(&rt, alloc, Maker::make(7, 200, 3), 2);
}

// This is the file of that name of a sample of two trips and three stops.
fn assert_file(rt: &impl Abort, alloc: Global, name: &str, wanted: &[u8])
    requires { IsSome (bytes_of (files_of 2 3) name.now) }
{
    let text = Maker::make(0, 2, 3).file(alloc, name).expect(rt, "memory");
    assert_eq!(rt; text.as_slice(), wanted);
}

#[test]
fn a_small_sample_has_these_files(rt: HostRuntime) {
    let alloc = rt.alloc();
    assert_file(&rt, alloc, "agency.txt", AGENCY);
    assert_file(&rt, alloc, "stops.txt", STOPS);
    assert_file(&rt, alloc, "routes.txt", ROUTES);
    assert_file(&rt, alloc, "trips.txt", TRIPS);
    assert_file(&rt, alloc, "calendar.txt", CALENDAR);
    assert_file(&rt, alloc, "stop_times.txt", STOP_TIMES);
}
