//! Which part of an item was read.

/// The bytes so far of a number, each of which has the high bit set (protobuf encoding, "Base 128 Varints").
#[derive(Clone, Copy, Debug, PartialEq, Eq)]
pub struct Chain {
    /// How many there are, at most nine.
    pub count: usize,
    /// The number that their low seven bits make.
    pub value: u64,
}

/// Which part of an item was read, an item being a tag with its payload.
#[derive(Clone, Copy, Debug, PartialEq, Eq)]
pub enum Part {
    /// Nothing of it.
    Nothing,
    /// The tag but for its last bytes.
    Tag(Chain),
    /// A tag, and its number but for its last bytes.
    Value(Chain),
    /// A tag of this field number, and its length but for its last bytes.
    Size { number: u32, chain: Chain },
    /// A tag of this field number, its length, and the payload but for so many bytes, at least one.
    Payload { number: u32, len: u64, left: u64 },
    /// A tag, and its eight bytes but for so many, at least one.
    Eight { left: u64 },
    /// A tag, and its four bytes but for so many, at least one.
    Four { left: u64 },
}
