//! A clock.
ghost use Rattle.std.specs.Prelude.{◌≡◌, ℕ, ℤ, List, ◌∷◌, Option, IfOk, OnOk, OnErr, IsErr, option_map};
ghost use Rattle.gw_base.specs.Count.{Counts};

use crate::moment::Moment;
use crate::sink::Failed;

/// A clock, which gives the present moment.
pub trait Clock {
    /// The moments to come, in seconds since 1970, where they are told.
    ghost told: { Self → Option (List ℤ) };

    /// How many faults it met. The count never falls, and stands still at the last value of a u64.
    ghost faults: { Self → ℕ };

    /// The present moment, which is the first of those to come.
    fn now(&mut self) -> Result<Moment, Failed>
        ensures given { IfOk result (λ moment. told self.old ≡ option_map (λ later. moment ∷ later) (told self.new)) }
        ensures calm { OnOk result (faults self.new ≡ faults self.old) }
        ensures failed { OnErr result (told self.new ≡ told self.old) }
        ensures counts { Counts (IsErr result) (faults self.old) (faults self.new) };
}
