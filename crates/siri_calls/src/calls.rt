//! The calls of a journey (SIRI 2.0, RecordedCall and EstimatedCall), as they are read.
ghost use Rattle.std.specs.Option.{ForSome};
ghost use Rattle.gw_base.specs.Moments.{IsMoment};

/// A call that is read.
#[derive(Clone, Copy)]
pub(crate) struct Call<'a> {
    /// The id of its stop.
    pub stop: &'a str,
    /// Its number in the order of stops, from 1.
    pub order: Option<u64>,
    /// Whether the journey doesn't stop there.
    pub skip: bool,
    /// When the journey arrives there, in seconds since 1970.
    pub arrival: Option<i64>,
    /// When the journey departs there, in seconds since 1970.
    pub departure: Option<i64>,
    pub ghost arrival_in: { ForSome arrival IsMoment },
    pub ghost departure_in: { ForSome departure IsMoment },
}
