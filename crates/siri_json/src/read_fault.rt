//! Why an item isn't read.
use journey_model::Fault;
use std::alloc::{AllocError, AllocFailed};

/// Why an item isn't read.
#[derive(Clone, Copy, Debug, PartialEq, Eq)]
pub enum ReadFault {
    /// It is set aside.
    Aside(Fault),
    /// Want of memory.
    Memory,
}

impl From<Fault> for ReadFault {
    ghost use Rattle.std.specs.Prelude.{◌≡◌};
    ghost use Rattle.siri_json.specs.declared.read_fault.ReadFault.TheVariants.{Aside};

    ghost from_gives = { λ fault e. e ≡ Aside fault };

    fn from(fault: Fault) -> ReadFault {
        ReadFault::Aside(fault)
    }
}

impl From<AllocError> for ReadFault {
    ghost use Rattle.std.specs.Prelude.{◌≡◌};
    ghost use Rattle.siri_json.specs.declared.read_fault.ReadFault.TheVariants.{Memory};

    ghost from_gives = { λ _ e. e ≡ Memory };

    fn from(_e: AllocError) -> ReadFault {
        ReadFault::Memory
    }
}

impl<T: Drop> From<AllocFailed<T>> for ReadFault {
    ghost use Rattle.std.specs.Prelude.{◌≡◌};
    ghost use Rattle.siri_json.specs.declared.read_fault.ReadFault.TheVariants.{Memory};

    ghost from_gives = { λ _ e. e ≡ Memory };

    fn from(_e: AllocFailed<T>) -> ReadFault {
        ReadFault::Memory
    }
}
