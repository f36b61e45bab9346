//! Why bytes were not read as a message.
ghost use Rattle.std.specs.Prelude.{◌≡◌};
ghost use Rattle.feed_reading.specs.declared.plain_fault.PlainFault.TheVariants.{Meaningless, Memory};

use std::alloc::AllocError;
use std::str::Utf8Error;
use wire_fields::{ListFault, WireFault};

/// Why bytes were not read as a message.
#[derive(Clone, Copy, Debug, PartialEq, Eq)]
pub enum PlainFault {
    /// The bytes mean no such message.
    Meaningless,
    /// Want of memory.
    Memory,
}

impl From<AllocError> for PlainFault {
    ghost from_gives = { λ _ e. e ≡ Memory };

    fn from(_error: AllocError) -> PlainFault {
        PlainFault::Memory
    }
}

impl From<Utf8Error> for PlainFault {
    ghost from_gives = { λ _ e. e ≡ Meaningless };

    fn from(_error: Utf8Error) -> PlainFault {
        PlainFault::Meaningless
    }
}

impl From<ListFault> for PlainFault {
    ghost use Rattle.feed_reading.specs.Plain.{fault_of};

    ghost from_gives = { λ fault e. e ≡ fault_of fault };

    fn from(fault: ListFault) -> PlainFault {
        match fault {
            ListFault::Wire(_) => PlainFault::Meaningless,
            ListFault::Memory => PlainFault::Memory,
        }
    }
}

impl From<WireFault> for PlainFault {
    ghost from_gives = { λ _ e. e ≡ Meaningless };

    fn from(_fault: WireFault) -> PlainFault {
        PlainFault::Meaningless
    }
}
