//! Moments of the years 1970 to 9998 in whole seconds.
ghost use Rattle.std.specs.Prelude.{◌≡◌, ◌↔◌, IsSome, IfSome};
ghost use Rattle.gw_base.specs.Moments.{IsMoment};

use crate::limits::LAST_MOMENT;
use std::marker::Model;

/// A moment: whole seconds since 1970-01-01T00:00:00Z, from 0 to 253,370,764,799, the last second of 9998.
/// A contract sees the seconds.
#[derive(Clone, Copy, Debug, PartialEq, Eq, PartialOrd, Ord)]
pub struct Moment {
    secs: i64,
}

impl Model for Moment {
    ghost use Rattle.std.specs.Prelude.{ℤ};
    ghost use Rattle.gw_base.specs.Moments.{IsMoment};

    ghost Value = { ℤ };

    ghost view = { λ m. m.secs };

    ghost invariant = { λ m. IsMoment m.secs };

    ghost inverse = { λ secs. record { secs = secs } };
}

impl Moment {
    /// The moment of that many seconds since 1970; None exactly where it is none.
    pub fn new(secs: i64) -> Option<Moment>
        ensures exactly { IsSome result ↔ IsMoment secs }
        ensures value { IfSome result (λ moment. moment ≡ secs) }
    {
        if 0 <= secs && secs <= LAST_MOMENT {
            Some(Moment { secs })
        } else {
            None
        }
    }

    /// Its seconds since 1970.
    pub fn secs(&self) -> i64
        ensures value { result ≡ self.now }
        ensures range { IsMoment result }
    {
        self.secs
    }
}
