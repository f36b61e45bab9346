//! What takes the situations of a delivery.
ghost use Rattle.std.specs.Prelude.{OnOk};
ghost use Rattle.siri_situations.specs.Deliveries.{HasTaken};

use crate::delivery::SituationDelivery;
use journey_model::{Context, Fault, Situation};
use std::alloc::{AllocError, Global};

/// What takes the situations of a delivery one after the other, as each is read.
pub trait TakesSituations {
    ghost use Rattle.std.specs.Prelude.{◌++◌, ◌∷◌, [], ℕ, List, Result, IfOk, OnOk};
    ghost use Rattle.journey_model.specs.Schedules.{Schedule};
    ghost use Rattle.journey_model.specs.Situations.{AreKnown};
    ghost use Rattle.journey_model.specs.declared.fault.Fault as faults;
    ghost use Rattle.journey_model.specs.declared.situation.Situation as of_journeys;

    /// What it was at first, and what it is after situations with these verdicts, which are read over a schedule.
    ghost has_taken: { Schedule → Self → Self → List (Result (of_journeys.Situation × ℕ) faults.Fault) → Type 0 };

    /// Takes the next situation with the number of its references that aren't known, or the fault for which it is set
    /// aside. After Err, which is want of memory, it may only be dropped.
    fn take(
        &mut self,
        alloc: Global,
        context: &Context<'_>,
        verdict: Result<(Situation, u64), Fault>,
    ) -> Result<(), AllocError>
        requires { IfOk verdict (λ one. AreKnown context.now.table one.0.refs) }
        ensures { (first : Self) (all : List (Result (of_journeys.Situation × ℕ) faults.Fault))
            → has_taken context.now first self.old all
            → OnOk result (has_taken context.now first self.new (all ++ verdict ∷ [])) };
}

/// A delivery keeps all of them.
impl TakesSituations for SituationDelivery {
    ghost has_taken = { λ schedule _ now all. HasTaken schedule now all };

    fn take(
        &mut self,
        _alloc: Global,
        _context: &Context<'_>,
        verdict: Result<(Situation, u64), Fault>,
    ) -> Result<(), AllocError> {
        self.add(verdict)
    }
}
