//! What a step of the reader answers.
use crate::field::WireFault;

/// One step: how many bytes of the piece it used, at least one, and what they are.
#[derive(Clone, Copy, Debug, PartialEq, Eq)]
pub struct Step {
    /// So many bytes from the front of the piece.
    pub used: usize,
    /// What they are.
    pub event: TopEvent,
}

/// What the used bytes are. They go no further than the first end of a field of the top level, or of the length of such
/// a field (protobuf encoding, "Message Structure").
#[derive(Clone, Copy, Debug, PartialEq, Eq)]
pub enum TopEvent {
    /// The whole piece was used, and it ends inside a tag, a length or a field that isn't length-delimited.
    More,
    /// A tag and its length end here: of the field of this number, whose tag stands at this place, in bytes from the
    /// feed's front, and whose payload has so many bytes. Where it has none, the field ends here too.
    Begin { number: u32, at: u64, len: u64 },
    /// Bytes of the payload of the field that began last, at most up to its end.
    Part,
    /// Another field ends here: a number, four or eight bytes, or a whole group.
    Other,
    /// The bytes break, in another way than being cut short.
    Broken(WireFault),
}
