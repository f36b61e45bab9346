//! The system's clock.
ghost use Rattle.std.specs.Prelude.{◌≡◌, None};

use gw_base::{Failed, Moment};
use std::marker::Model;
use std::time::{Clock, SystemTime, UNIX_EPOCH};

/// The clock of the system. A contract sees its count of faults.
#[derive(Drop)]
pub struct SystemClock<'a, R: Clock> {
    rt: &'a R,
    faults: u64,
}

impl<'a, R: Clock> Model for SystemClock<'a, R> {
    ghost use Rattle.std.specs.Prelude.{ℕ};

    ghost Value = { ℕ };

    ghost view = { λ c. c.faults };
}

impl<'a, R: Clock> SystemClock<'a, R> {
    /// The clock that the runtime reaches, with no fault so far.
    pub fn new(rt: &'a R) -> SystemClock<'a, R>
        ensures { result ≡ 0 }
    {
        SystemClock { rt, faults: 0 }
    }

    // The present moment, where the system tells it and it is one.
    fn moment(&self) -> Option<Moment> {
        let time = SystemTime::now(self.rt).ok()?;
        let since = time.duration_since(UNIX_EPOCH).ok()?;
        Moment::new(i64::try_from(since.as_secs()).ok()?)
    }
}

impl<'a, R: Clock> gw_base::Clock for SystemClock<'a, R> {
    ghost told = { λ _. None };

    ghost faults = { λ faults. faults };

    /// The whole seconds since 1970 that the system tells. A time that it doesn't tell, or that is no moment,
    /// is a fault.
    fn now(&mut self) -> Result<Moment, Failed> {
        match self.moment() {
            Some(moment) => Ok(moment),
            None => {
                self.faults = self.faults.saturating_add(1);
                Err(Failed)
            }
        }
    }
}
