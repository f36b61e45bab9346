//! A trip that is carried.

/// The numbers of a trip's route and service, and from which place to which its stops stand among those of all trips.
#[derive(Clone, Copy, Debug)]
pub struct CarriedTrip {
    /// The number of its route.
    pub route: u32,
    /// The number of its service.
    pub service: u32,
    /// The place of its first stop.
    pub first: usize,
    /// The place after its last stop.
    pub end: usize,
}
