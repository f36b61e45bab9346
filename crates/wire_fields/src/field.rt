//! A field of a message, and the place where bytes are none.
use gw_base::WireKind;

/// What a field holds (protobuf encoding, "Message Structure").
#[derive(Clone, Copy, Debug, PartialEq, Eq)]
pub enum Value<'a> {
    /// A number of the wire type VARINT, of which bits past 64 were dropped.
    Varint(u64),
    /// Eight bytes, the least first: the wire type I64.
    Fixed64(u64),
    /// Bytes of a stated length: the wire type LEN.
    Bytes(&'a [u8]),
    /// A group with all that it holds, which was skipped: the wire types SGROUP and EGROUP.
    Group,
    /// Four bytes, the least first: the wire type I32.
    Fixed32(u32),
}

/// A field of a message: its number, from 1 to 536,870,911, and what it holds.
#[derive(Clone, Copy, Debug, PartialEq, Eq)]
pub struct Field<'a> {
    /// The field number.
    pub number: u32,
    /// What it holds.
    pub value: Value<'a>,
}

/// Where and how bytes are no list of fields.
#[derive(Clone, Copy, Debug, PartialEq, Eq)]
pub struct WireFault {
    /// The place of the first field that isn't whole, in bytes from the front.
    pub at: u64,
    /// What is wrong with it.
    pub kind: WireKind,
}
