//! What the bytes of an item came to.
use crate::top::part::Part;
use gw_base::WireKind;

/// What the bytes of an item came to.
#[derive(Clone, Copy, Debug)]
pub enum Turn {
    /// It didn't end.
    Open(Part),
    /// The length of a field of this number ended.
    Sized { number: u32, len: u64 },
    /// A field ended that holds no bytes and is no group.
    Whole,
    /// The start of a group of this number ended.
    Starts(u32),
    /// The end of a group of this number ended.
    Ends(u32),
    /// It is none.
    Fault(WireKind),
}
