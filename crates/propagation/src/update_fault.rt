//! Why the updates of a trip are refused.
ghost use Rattle.std.specs.Prelude.{◌≡◌};
ghost use Rattle.propagation.specs.declared.update_fault.UpdateFault.TheVariants as Variants;

use journey_model::Fault;
use std::alloc::{AllocError, AllocFailed};

/// Why the updates of a trip are refused.
#[derive(Clone, Copy, Debug, PartialEq, Eq)]
pub enum UpdateFault {
    /// The first fault of the list.
    Fault(Fault),
    /// Want of memory.
    Memory,
}

impl From<AllocError> for UpdateFault {
    ghost from_gives = { λ _ given. given ≡ Variants.Memory };

    fn from(_error: AllocError) -> UpdateFault {
        UpdateFault::Memory
    }
}

impl<T: Drop> From<AllocFailed<T>> for UpdateFault {
    ghost from_gives = { λ _ given. given ≡ Variants.Memory };

    fn from(_error: AllocFailed<T>) -> UpdateFault {
        UpdateFault::Memory
    }
}
