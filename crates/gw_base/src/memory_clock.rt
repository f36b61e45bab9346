//! A clock in memory.
ghost use Rattle.std.specs.Prelude.{◌≡◌, ◌≢◌, ◌∷◌, true, false, [], Some, IsOk, IsErr, IsOkAnd};
ghost use Rattle.gw_base.specs.Count.{Counts};
ghost use Rattle.gw_base.specs.ClockInMemory.{gives_next, after_failed};
ghost use Rattle.gw_base.specs.Memory.{after_use};

use crate::clock::Clock;
use crate::list::List;
use crate::moment::Moment;
use crate::sink::Failed;
use crate::uses::Uses;
use std::marker::Model;

/// A clock in memory, which gives its moments in order, with the numbers of the calls that are to fail.
/// It tells the moments to come. A call fails where it is to fail, and where no moment is left. A
/// contract sees the moments to come and the uses.
#[derive(Debug, Drop)]
pub struct MemoryClock {
    moments: List<Moment>,
    given: usize,
    uses: Uses,
}

impl Model for MemoryClock {
    ghost use Rattle.std.specs.Prelude.{drop};
    ghost use Rattle.gw_base.specs.ClockInMemory.{ClockInMemory};

    ghost Value = { ClockInMemory };

    ghost view = { λ c. record { moments = drop c.given c.moments; uses = c.uses } };
}

impl MemoryClock {
    /// A clock that gives these moments. `fails` has the numbers, from 1, of the calls that are to fail.
    /// Takes no memory.
    pub fn make(moments: List<Moment>, fails: List<u64>) -> MemoryClock
        ensures { result ≡ record { moments = moments; uses = record { fails = fails; made = 0; faults = 0 } } }
    {
        MemoryClock {
            moments,
            given: 0,
            uses: Uses::new(fails),
        }
    }
}

impl Clock for MemoryClock {
    ghost told = { λ c. Some c.moments };

    ghost faults = { λ c. c.uses.faults };

    fn now(&mut self) -> Result<Moment, Failed>
        // A call goes well exactly where it is not to fail and a moment is left, and then takes that one off.
        ensures went { gives_next self.old ≡ true → IsOkAnd result
            (λ moment. self.old.moments ≡ moment ∷ self.new.moments) × (self.new.uses ≡ after_use self.old.uses) }
        ensures failed { gives_next self.old ≡ false → IsErr result × (self.new ≡ after_failed self.old) }
        ensures counts { Counts (IsErr result) self.old.uses.faults self.new.uses.faults }

        // Without calls that are to fail it never fails while moments are left.
        ensures never_fails { self.old.uses.fails ≡ [] → self.old.moments ≢ [] → IsOk result }
    {
        let Some(moment) = self.moments.as_slice().get(self.given).copied() else {
            self.uses.begin(false);
            return Err(Failed);
        };
        if !self.uses.begin(true) {
            return Err(Failed);
        }
        self.given += 1;
        Ok(moment)
    }
}
