//! What became of the items of a delivery so far. The functions meet `specs/Tallied.antt`.
ghost use Rattle.std.specs.Prelude.{◌≡◌, ◌+◌, ◌++◌, ◌∷◌, [], ℕ, List as Values, Option, OnOk};
ghost use Rattle.journey_model.specs.declared.fault.Fault as faults;
ghost use Rattle.gateway_core.specs.Tallied.{Tallied, report_of};

use gw_base::List;
use journey_model::{Fault, Report};
use std::alloc::{AllocError, Global};

/// What became of the items of a delivery so far.
#[derive(Drop)]
pub(crate) struct Tally {
    /// How many there were.
    pub items: u64,
    /// How many parts of those that say something were passed over; the count stays at its last value.
    pub passed: u64,
    /// Those that were set aside, by their number, and why.
    pub aside: List<(u64, Fault)>,
}

impl Tally {
    /// No item yet, which takes no memory.
    pub fn new(alloc: Global) -> Tally
        ensures { Tallied [] 0 result }
    {
        Tally {
            items: 0,
            passed: 0,
            aside: List::new(alloc),
        }
    }

    /// One item more: how many parts of it were passed over, and why it is set aside, if it is. An error is want of
    /// memory, as is a count of items past its last value.
    pub fn add(&mut self, passed: u64, fault: Option<Fault>) -> Result<(), AllocError>
        ensures { (before : Values (Option faults.Fault)) (sum : ℕ) → Tallied before sum self.old
            → OnOk result (Tallied (before ++ fault ∷ []) (sum + passed) self.new) }
    {
        let number = self.items;
        let sum = self.passed.saturating_add(passed);
        let Some(items) = number.checked_add(1) else {
            return Err(AllocError);
        };
        if let Some(fault) = fault {
            self.aside.push((number, fault))?;
        }
        self.items = items;
        self.passed = sum;
        Ok(())
    }

    /// The report on them.
    pub fn into_report(self) -> Report
        ensures { (all : Values (Option faults.Fault)) (sum : ℕ) → Tallied all sum self → result ≡ report_of all sum }
    {
        let Tally {
            items,
            passed,
            aside,
        } = self;
        Report {
            taken: items.saturating_sub(aside.len() as u64),
            passed,
            aside,
        }
    }
}
