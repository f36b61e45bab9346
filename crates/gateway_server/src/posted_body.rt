//! A body that is posted, while it arrives. The definitions are those of `specs/Posted.antt`.
ghost use Rattle.std.specs.Prelude.{◌≡◌, ◌≤◌, ◌+◌, ◌++◌, [], ℕ, List, length, IfOk};
ghost use Rattle.gw_base.specs.Limits.{body_limit};
ghost use Rattle.gateway_core.specs.Arriving.{StandsFor};

use door_talk::TakesBody;
use gateway_core::{FeedTaking, Gateway};
use gw_base::{Bytes, Kind, Moment};
use std::alloc::{AllocError, Global};

/// A body that is posted, while it arrives: that of a delivery is kept, and a feed is read on the way.
#[derive(Drop)]
pub enum PostedBody {
    /// There was no memory for it.
    Nothing,
    /// A delivery of estimated timetables, whose bytes are kept.
    Estimated(Bytes),
    /// A delivery of situations, whose bytes are kept.
    Situations(Bytes),
    /// A feed, of which no byte is kept, and the empty buffer in which the bytes of a delivery are.
    Feed(FeedTaking, Bytes),
}

// The feed after its next bytes.
fn read_on(feed: FeedTaking, gate: &Gateway, piece: &[u8]) -> Result<FeedTaking, AllocError>
    requires room { feed.reader.taken + length piece.now ≤ body_limit }
    ensures takes { (bytes : List ℕ) → StandsFor gate.now.setting feed bytes
        → IfOk result (λ after. StandsFor gate.now.setting after (bytes ++ piece.now)) }
    ensures moment { IfOk result (λ after. after.moment ≡ feed.moment) }
    ensures window { IfOk result (λ after. after.window ≡ feed.window) }
    ensures counted { IfOk result (λ after. after.reader.taken ≡ feed.reader.taken + length piece.now) }
{
    let mut feed = feed;
    feed.piece(gate, piece)?;
    Ok(feed)
}

// The bytes that are kept, followed by these.
fn kept_on(bytes: Bytes, piece: &[u8]) -> Result<Bytes, AllocError>
    ensures { IfOk result (λ all. all ≡ bytes ++ piece.now) }
{
    let mut bytes = bytes;
    bytes.extend(piece)?;
    Ok(bytes)
}

// A buffer with room for so many bytes.
fn roomy(
    alloc: Global,
    buffer: Bytes,
    gate: &Gateway,
    moment: Moment,
    kind: Kind,
    size: usize,
) -> Result<Bytes, AllocError>
    ensures { IfOk result (λ room. room ≡ []) }
{
    let mut buffer = buffer;
    buffer.begin(alloc, gate, moment, kind, size)?;
    Ok(buffer)
}

impl PostedBody {
    ghost use Rattle.std.specs.Prelude.{◌≡◌, ◌≤◌, length};
    ghost use Rattle.gateway_server.specs.Posted.{came};

    /// What may be posted, before any of it came: the bytes of a delivery are kept in this buffer.
    pub fn with_buffer(buffer: Bytes) -> PostedBody
        ensures { came result ≡ length buffer }
    {
        PostedBody::Estimated(buffer)
    }

    /// The buffer, once what was posted isn't needed any more.
    pub fn into_buffer(self, alloc: Global) -> Bytes
        ensures { length result ≤ came self }
    {
        match self {
            PostedBody::Nothing => Bytes::new(alloc),
            PostedBody::Estimated(bytes) => bytes,
            PostedBody::Situations(bytes) => bytes,
            PostedBody::Feed(_, buffer) => emptied(buffer),
        }
    }
}

/// A buffer without its bytes.
pub fn emptied(buffer: Bytes) -> Bytes
    ensures { result ≡ [] }
{
    let mut bytes = buffer.into_vec();
    bytes.clear();
    Bytes::from_vec(bytes)
}

impl TakesBody<Gateway> for PostedBody {
    ghost use Rattle.gateway_server.specs.Posted.{PostedStands, came};

    ghost stands = { PostedStands };

    ghost taken = { came };

    fn begin(
        &mut self,
        alloc: Global,
        over: &Gateway,
        moment: Moment,
        kind: Kind,
        size: usize,
    ) -> Result<(), AllocError> {
        let buffer = std::mem::replace(self, PostedBody::Nothing).into_buffer(alloc);
        match kind {
            Kind::Estimated => {
                *self = PostedBody::Estimated(roomy(alloc, buffer, over, moment, kind, size)?);
            }
            Kind::Situations => {
                *self = PostedBody::Situations(roomy(alloc, buffer, over, moment, kind, size)?);
            }
            Kind::Feed => {
                *self = PostedBody::Feed(over.begin_feed(alloc, moment)?, emptied(buffer));
            }
        }
        Ok(())
    }

    fn take(&mut self, over: &Gateway, piece: &[u8]) -> Result<(), AllocError> {
        match std::mem::replace(self, PostedBody::Nothing) {
            PostedBody::Nothing => return Err(AllocError),
            PostedBody::Estimated(bytes) => {
                *self = PostedBody::Estimated(kept_on(bytes, piece)?);
            }
            PostedBody::Situations(bytes) => {
                *self = PostedBody::Situations(kept_on(bytes, piece)?);
            }
            PostedBody::Feed(feed, buffer) => {
                *self = PostedBody::Feed(read_on(feed, over, piece)?, buffer);
            }
        }
        Ok(())
    }
}
