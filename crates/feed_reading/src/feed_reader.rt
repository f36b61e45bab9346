//! A feed that is read piece by piece, as a posted one comes: its entities are given one by one as they end, and none
//! of the bytes so far is stored but those of the body that is being read. When a body has ended, the quick reader
//! reads it, and else the finder and the plain one, as in a whole feed. `specs/FeedPieces.antt` says what the reader
//! stands for.
mod entity_body;
mod header_body;
mod reader;
mod state;

pub use reader::FeedReader;
pub use state::{Body, HeadSoFar};
