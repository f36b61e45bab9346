//! Why the fields of a message were not listed.
ghost use Rattle.std.specs.Prelude.{◌≡◌};
ghost use Rattle.wire_fields.specs.declared.fault.ListFault.TheVariants.{Wire, Memory};

use crate::field::WireFault;
use std::alloc::AllocError;

/// Why the fields of a message were not listed.
#[derive(Clone, Copy, Debug, PartialEq, Eq)]
pub enum ListFault {
    /// The bytes are no list of fields.
    Wire(WireFault),
    /// Want of memory.
    Memory,
}

impl From<WireFault> for ListFault {
    ghost from_gives = { λ fault e. e ≡ Wire fault };

    fn from(fault: WireFault) -> ListFault {
        ListFault::Wire(fault)
    }
}

impl From<AllocError> for ListFault {
    ghost from_gives = { λ _ e. e ≡ Memory };

    fn from(_error: AllocError) -> ListFault {
        ListFault::Memory
    }
}
