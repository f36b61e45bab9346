//! The plain reader of feeds: it follows the definition of what bytes mean, kind by kind and table by table, and keeps
//! every list on the way. It runs last, where the quick reader found no feed and the finder no fault: so no clause has
//! to say that what the quick reader refuses has a fault. Tests compare the quick reader with it.
ghost use Rattle.std.specs.Prelude.{IfOk, IsErrOf};
ghost use Rattle.gw_base.specs.declared.messages.Feed.{Feed};
ghost use Rattle.feed_reading.specs.Tables.{MeansFeed};

pub mod kinds;
pub mod nested;
pub mod tables;

use crate::plain_fault::PlainFault;
use gw_base::Feed;
use nested::read;
use std::alloc::Global;

/// The feed that the bytes mean, or `Meaningless` where they mean none (GTFS Realtime, FeedMessage). `Memory` is the
/// one answer that may come at any bytes.
pub fn plain_feed(alloc: Global, bytes: &[u8]) -> Result<Feed, PlainFault>
    ensures means { IfOk result (λ feed. MeansFeed bytes.now feed) }
    ensures none { IsErrOf result PlainFault.Meaningless → (feed : Feed) → ¬ (MeansFeed bytes.now feed) }
{
    read(alloc, bytes)
}
