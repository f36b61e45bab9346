//! What a reader of a feed in pieces keeps of the fields that came.
use gw_base::Text;

/// The body that is being read, with the place of its field's tag and its stated length, in bytes.
#[derive(Clone, Copy, Debug, PartialEq, Eq)]
pub enum Body {
    /// None of a header or an entity.
    Other,
    /// One of the header.
    Header { at: u64, len: u64 },
    /// That of an entity, which isn't too long.
    Entity { at: u64, len: u64 },
}

/// What the bodies of a header say so far (GTFS Realtime, FeedHeader).
#[derive(Debug, Drop)]
pub struct HeadSoFar {
    /// The last version.
    pub version: Option<Text>,
    /// The last number of the incrementality.
    pub incrementality: Option<u64>,
    /// The last timestamp.
    pub timestamp: Option<u64>,
}
