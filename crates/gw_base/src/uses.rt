//! The uses of an object in memory, and which of them are to fail.
ghost use Rattle.std.specs.Prelude.{◌≡◌, false, ◌&&◌, not, if◌then◌else◌};
ghost use Rattle.gw_base.specs.Count.{Counts};
ghost use Rattle.gw_base.specs.Memory.{fails_next, after_use, after_fault};

use crate::list::List;
use std::marker::Model;

// The uses so far. A contract sees the numbers that are to fail, the uses made, and the faults.
#[derive(Debug, Drop)]
pub struct Uses {
    fails: List<u64>,
    made: u64,
    faults: u64,
}

impl Model for Uses {
    ghost use Rattle.gw_base.specs.Memory.{Uses as Seen};

    ghost Value = { Seen };

    ghost view = { λ p. record { fails = p.fails; made = p.made; faults = p.faults } };
}

impl Uses {
    // No use was made yet.
    pub fn new(fails: List<u64>) -> Uses
        ensures { result ≡ record { fails = fails; made = 0; faults = 0 } }
    {
        Uses {
            fails,
            made: 0,
            faults: 0,
        }
    }

    // Counts one more use, and answers whether it goes well: it can be done, and is not to fail.
    pub fn begin(&mut self, can: bool) -> bool
        ensures goes { result ≡ (not (fails_next self.old) && can) }
        ensures counted { self.new ≡ (if result then after_use self.old else after_fault self.old) }
        ensures counts { Counts (result ≡ false) self.old.faults self.new.faults }
    {
        self.made = self.made.saturating_add(1);
        let goes = !self.fails.as_slice().contains(&self.made) && can;
        if !goes {
            self.faults = self.faults.saturating_add(1);
        }
        goes
    }
}
