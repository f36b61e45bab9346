//! What takes the journeys of a delivery.
ghost use Rattle.std.specs.Prelude.{OnOk};
ghost use Rattle.journey_model.specs.Records.{recorded};
ghost use Rattle.siri_calls.specs.Deliveries.{HasTaken};

use crate::delivery::Delivery;
use journey_model::{Context, Fault, JourneyRecord};
use std::alloc::{AllocError, Global};

/// What takes the journeys of a delivery one after the other, as each is judged.
pub trait TakesJourneys {
    ghost use Rattle.std.specs.Prelude.{◌++◌, ◌∷◌, [], ℕ, List, Result, IfOk, OnOk};
    ghost use Rattle.journey_model.specs.Records.{Recorded, recorded};
    ghost use Rattle.journey_model.specs.Schedules.{Schedule};
    ghost use Rattle.journey_model.specs.declared.fault.Fault as faults;
    ghost use Rattle.siri_calls.specs.Servable.{IsServable};
    ghost use Rattle.siri_json.specs.Deliveries.{verdict_seen};

    /// What it was at first, and what it is after journeys with these verdicts, which are judged over a schedule.
    ghost has_taken: { Schedule → Self → Self → List (Result (Recorded × ℕ) faults.Fault) → Type 0 };

    /// Takes the next journey: its record and the number of its extra calls, or the fault for which it is set aside.
    /// After Err, which is want of memory, it may only be dropped.
    fn take(
        &mut self,
        alloc: Global,
        context: &Context<'_>,
        verdict: Result<(JourneyRecord, u64), Fault>,
    ) -> Result<(), AllocError>
        requires { IfOk verdict (λ one. IsServable context.now one.0) }
        ensures { (first : Self) (all : List (Result (Recorded × ℕ) faults.Fault))
            → has_taken context.now first self.old all
            → OnOk result (has_taken context.now first self.new (all ++ verdict_seen recorded verdict ∷ [])) };
}

/// A delivery keeps all of them.
impl TakesJourneys for Delivery {
    ghost has_taken = { λ schedule _ now all. HasTaken schedule now all };

    fn take(
        &mut self,
        _alloc: Global,
        _context: &Context<'_>,
        verdict: Result<(JourneyRecord, u64), Fault>,
    ) -> Result<(), AllocError> {
        self.add(verdict)
    }
}
