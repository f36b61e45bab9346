//! The timetable and its calls, which meet the `Table` that it shows (`specs/Table.antt`, `Seen.antt`).
ghost use Rattle.std.specs.Prelude.{◌≡◌, ◌≤◌, ◌<◌, true, Some, length, slice_get, position, option_map, IfSome, IsTrue};
ghost use Rattle.std.specs.Str.{bytes_eq};
ghost use Rattle.timetable.specs.Held.{are_in_range, are_stations};
ghost use Rattle.timetable.specs.Ids.{are_distinct};
ghost use Rattle.timetable.specs.Limits.{id_limit, stop_limit, trip_limit};
ghost use Rattle.timetable.specs.Stops.{are_known, are_rising, are_timed};

use crate::carried_trip::CarriedTrip;
use crate::ids::Ids;
use crate::numbers::{RouteNo, StopNo, TripNo};
use crate::services::Services;
use crate::stop_row::StopRow;
use service_day::Day;

/// What a GTFS Schedule folder says. What it shows is a `Table`, by the word `seen` of `specs/Seen.antt`. No call on it
/// takes memory.
#[derive(Drop)]
pub struct Timetable {
    trips: Ids,
    stops: Ids,
    routes: Ids,
    carried: Vec<CarriedTrip>,
    stop_rows: Vec<StopRow>,
    services: Services,
    // The station of each stop; none where no stop has a parent.
    stations: Vec<StopNo>,
    ghost in_range: { are_in_range trips routes stops carried.items stop_rows.items ≡ true },
    ghost stations_known: { are_stations (length stops) stations.items ≡ true },
}

impl Timetable {
    ghost use Rattle.timetable.specs.Held.{shown};
    ghost use Rattle.timetable.specs.Seen.{seen};
    ghost use Rattle.timetable.specs.Sound.{IsSound};

    /// The timetable of these ids, of the trips that are carried, whose stops stand one trip's after the other's, and
    /// of their services; and of the station of each stop, or of none, where each stop is its own station. The numbers
    /// and places of each trip are in range, its stops are those of a trip, and the stations are stops.
    pub fn new(
        trips: Ids,
        stops: Ids,
        routes: Ids,
        carried: Vec<CarriedTrip>,
        stop_rows: Vec<StopRow>,
        services: Services,
        stations: Vec<StopNo>,
    ) -> Timetable
        requires in_range { are_in_range trips routes stops carried.items stop_rows.items ≡ true }
        requires stations { are_stations (length stops) stations.items ≡ true }
        ensures { seen result ≡ shown trips stops routes carried.items stop_rows.items services stations.items }
    {
        Timetable {
            trips,
            stops,
            routes,
            carried,
            stop_rows,
            services,
            stations,
        }
    }

    /// The number of trips.
    pub fn trips(&self) -> u32
        ensures value { result ≡ length self.now.trips }
        ensures limit { result ≤ trip_limit }
        ensures distinct { IsTrue (are_distinct self.now.trips) }
    {
        self.trips.len() as u32
    }

    /// The trip with that id, if there is one.
    pub fn find_trip(&self, id: &str) -> Option<TripNo>
        ensures place { option_map (λ trip. trip.0) result ≡ position (bytes_eq id.now) self.now.trips }
        ensures within { IfSome result (λ trip. trip.0 < length self.now.trips) }
    {
        match self.trips.find(id) {
            Some(place) => Some(TripNo(place)),
            None => None,
        }
    }

    /// The id of a trip, as `trips.txt` has it without the blanks round it.
    pub fn trip_id(&self, trip: TripNo) -> &str
        requires { trip.0 < length self.now.trips }
        ensures value { slice_get self.now.trips trip.0 ≡ Some result.now }
        ensures shortest { 1 ≤ length result.now }
        ensures longest { length result.now ≤ id_limit }

        // No other trip has the id, so `find_trip` finds this one by it.
        ensures found { position (bytes_eq result.now) self.now.trips ≡ Some trip.0 }
    {
        self.trips.at(trip.0)
    }

    /// The id of a trip's route.
    pub fn route_of(&self, trip: TripNo) -> &str
        requires { trip.0 < length self.now.trips }
        ensures value { result.now ≡ (seen self.now).route_of trip.0 }
        ensures shortest { 1 ≤ length result.now }
        ensures longest { length result.now ≤ id_limit }
    {
        let carried = &self.carried[trip.0 as usize];
        self.routes.at(carried.route)
    }

    /// The stop with that id, if there is one.
    pub fn find_stop(&self, id: &str) -> Option<StopNo>
        ensures place { option_map (λ stop. stop.0) result ≡ position (bytes_eq id.now) self.now.stops }
        ensures within { IfSome result (λ stop. stop.0 < length self.now.stops) }
    {
        match self.stops.find(id) {
            Some(place) => Some(StopNo(place)),
            None => None,
        }
    }

    /// The id of a stop.
    pub fn stop_id(&self, stop: StopNo) -> &str
        requires { stop.0 < length self.now.stops }
        ensures value { slice_get self.now.stops stop.0 ≡ Some result.now }
        ensures shortest { 1 ≤ length result.now }
        ensures longest { length result.now ≤ id_limit }
        ensures found { position (bytes_eq result.now) self.now.stops ≡ Some stop.0 }
    {
        self.stops.at(stop.0)
    }

    /// The number of a stop's station: that of its parent (`parent_station` of stops.txt), or else its own. Two stops
    /// are of one station where this is equal; a parent's own parent isn't looked at.
    pub fn station_of(&self, stop: StopNo) -> StopNo
        ensures value { result.0 ≡ (seen self.now).station_of stop.0 }
        ensures within { stop.0 < length self.now.stops → result.0 < length self.now.stops }
    {
        match self.stations.get(stop.0 as usize) {
            Some(station) => *station,
            None => stop,
        }
    }

    /// The route with that id, if there is one.
    pub fn find_route(&self, id: &str) -> Option<RouteNo>
        ensures place { option_map (λ route. route.0) result ≡ position (bytes_eq id.now) self.now.routes }
        ensures within { IfSome result (λ route. route.0 < length self.now.routes) }
    {
        match self.routes.find(id) {
            Some(place) => Some(RouteNo(place)),
            None => None,
        }
    }

    /// The id of a route.
    pub fn route_id(&self, route: RouteNo) -> &str
        requires { route.0 < length self.now.routes }
        ensures value { slice_get self.now.routes route.0 ≡ Some result.now }
        ensures shortest { 1 ≤ length result.now }
        ensures longest { length result.now ≤ id_limit }
        ensures found { position (bytes_eq result.now) self.now.routes ≡ Some route.0 }
    {
        self.routes.at(route.0)
    }

    /// The stops of a trip, in rising sequence: at most 250, with times of at most 99:59:59.
    pub fn stops_of(&self, trip: TripNo) -> &[StopRow]
        requires { trip.0 < length self.now.trips }
        ensures value { result.now ≡ (seen self.now).stops_of trip.0 }
        ensures rising { are_rising result.now ≡ true }
        ensures known { are_known (length self.now.stops) result.now ≡ true }
        ensures few { length result.now ≤ stop_limit }
        ensures timed { are_timed result.now ≡ true }
    {
        let carried = &self.carried[trip.0 as usize];
        let (front, _) = self.stop_rows.as_slice().split_at(carried.end);
        let (_, stops) = front.split_at(carried.first);
        stops
    }

    /// What every timetable keeps: the ids are told apart, and the stops and the route of each trip are known, and so
    /// is the station of each stop. A law for readers of a timetable, which does nothing when it runs.
    pub fn soundness_law(&self)
        ensures { IsSound (seen self.now) }
    {
        let _ = (self.trips.len(), self.stops.len(), self.routes.len());
    }

    /// Whether a trip runs on a day (GTFS Schedule reference, calendar.txt and calendar_dates.txt).
    pub fn runs(&self, trip: TripNo, day: Day) -> bool
        requires { trip.0 < length self.now.trips }
        ensures { result ≡ (seen self.now).runs trip.0 day }
    {
        let service = self.carried[trip.0 as usize].service;
        self.services.run(service, day)
    }
}
