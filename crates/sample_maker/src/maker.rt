//! A sample: its files, and its deliveries one after the other.
ghost use Rattle.std.specs.Prelude.{◌≡◌, ◌≤◌, Some, IsSome, IfOk, OnErr};
ghost use Rattle.std.specs.Str.{bytes_eq};
ghost use Rattle.gw_base.specs.Directory.{bytes_of};
ghost use Rattle.sample_maker.specs.Folder.{folder as files_of};
ghost use Rattle.sample_maker.specs.Making.{after_next, next_text};

use crate::folder;
use crate::journeys::delivery;
use gw_base::Bytes;
use std::alloc::{AllocError, Global};
use std::marker::Model;

/// A folder of GTFS Schedule and deliveries of SIRI estimated timetables (SIRI 2.0), made of three numbers: a seed, how
/// many trips there are, and at how many stops each of them stops. A contract sees the three numbers and how many
/// deliveries were given.
#[derive(Debug, Drop)]
pub struct Maker {
    seed: u32,
    trips: u32,
    stops: u32,
    given: u32,
    held: u32,
}

impl Model for Maker {
    ghost use Rattle.sample_maker.specs.Making.{IsHeld, Making};

    ghost Value = { Making };

    ghost view = { λ m. record { seed = m.seed; trips = m.trips; stops = m.stops; given = m.given } };

    ghost invariant = { λ m. IsHeld m.seed m.trips m.stops m.given m.held };
}

// Whether the file is the one of that name.
fn is_named(file: &str, name: &str) -> bool
    ensures { result ≡ bytes_eq file.now name.now }
{
    file == name
}

impl Maker {
    /// The sample of the three numbers, with no delivery given yet. Takes no memory.
    pub fn make(seed: u32, trips: u32, stops: u32) -> Maker
        requires seed { seed ≤ 2147483647 }
        requires some_trip { 1 ≤ trips }
        requires trips { trips ≤ 20000 }
        requires two_stops { 2 ≤ stops }
        requires stops { stops ≤ 100 }
        ensures { result ≡ record { seed = seed; trips = trips; stops = stops; given = 0 } }
    {
        Maker {
            seed,
            trips,
            stops,
            given: 0,
            held: seed,
        }
    }

    /// The text of the folder's file of that name, which is `agency.txt`, `stops.txt`, `routes.txt`, `trips.txt`,
    /// `calendar.txt` or `stop_times.txt`. Err for want of memory.
    pub fn file(&self, alloc: Global, name: &str) -> Result<Bytes, AllocError>
        requires { IsSome (bytes_of (files_of self.now.trips self.now.stops) name.now) }
        ensures { IfOk result (λ text. bytes_of (files_of self.now.trips self.now.stops) name.now
            ≡ Some text) }
    {
        if is_named("agency.txt", name) {
            return folder::agency(alloc);
        }
        if is_named("stops.txt", name) {
            return folder::stops(alloc, self.stops);
        }
        if is_named("routes.txt", name) {
            return folder::routes(alloc);
        }
        if is_named("trips.txt", name) {
            return folder::trips(alloc, self.trips);
        }
        if is_named("calendar.txt", name) {
            return folder::calendar(alloc);
        }
        folder::stop_times(alloc, self.trips, self.stops)
    }

    /// The text of the next delivery, or None exactly where the journeys of all trips were given. For want of memory
    /// the maker stays as it was.
    pub fn next_delivery(&mut self, alloc: Global) -> Result<Option<Bytes>, AllocError>
        ensures given { IfOk result (λ text. text ≡ next_text self.old) }
        ensures after { IfOk result (λ text. self.new ≡ after_next self.old) }
        ensures kept { OnErr result (self.new ≡ self.old) }
    {
        let from = 100 * self.given;
        if from >= self.trips {
            return Ok(None);
        }
        let count = (self.trips - from).min(100);
        let (text, held) = delivery(alloc, self.stops, from, count, self.held)?;
        self.held = held;
        self.given += 1;
        Ok(Some(text))
    }
}
