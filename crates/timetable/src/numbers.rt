//! Numbers of trips, stops and routes.

/// The number of a trip: the trips that are carried are numbered from 0, in the order of `trips.txt`.
#[derive(Clone, Copy, Debug, PartialEq, Eq, PartialOrd, Ord)]
pub struct TripNo(pub u32);

/// The number of a stop: stops are numbered from 0, in the order of `stops.txt`.
#[derive(Clone, Copy, Debug, PartialEq, Eq, PartialOrd, Ord)]
pub struct StopNo(pub u32);

/// The number of a route: routes are numbered from 0, in the order of `routes.txt`.
#[derive(Clone, Copy, Debug, PartialEq, Eq, PartialOrd, Ord)]
pub struct RouteNo(pub u32);
