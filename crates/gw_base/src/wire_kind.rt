//! The kinds of break in protobuf's wire format.

/// Why bytes are no list of protobuf fields (protobuf encoding, "Message structure").
#[derive(Clone, Copy, Debug, PartialEq, Eq)]
pub enum WireKind {
    /// The bytes end inside a field or an open group.
    Truncated,
    /// A varint has more than ten bytes.
    LongVarint,
    /// A tag is above 32 bits, has field number 0, or has a wire type that is not defined.
    BadTag,
    /// A group ends that is not open, or under another number than the innermost open one.
    BadGroup,
    /// More than 64 groups are open at once.
    DeepGroup,
}
