//! Feeds are read by `feed_reading`; what is written is read again.
ghost use Rattle.std.specs.Prelude.{◌≡◌, ℤ, List, IfOk, IfErr, MatchResult};
ghost use Rattle.std.specs.List.{AllByRecursion};
ghost use Rattle.gw_base.specs.Moments.{IsMoment};
ghost use Rattle.gw_base.specs.declared.messages.Entity.{Entity};
ghost use Rattle.gw_base.specs.declared.messages.Feed.{Feed};
ghost use Rattle.feed_writing.specs.Written.{written_feed};
ghost use Rattle.feed_reading.specs.declared.fault.FeedFault.{FeedFault};
ghost use Rattle.feed_reading.specs.Faults.{HasFault, IsTold};
ghost use Rattle.feed_reading.specs.Tables.{MeansFeed, full_dataset};
ghost use Rattle.feed_messages.specs.Readable.{IsReadable};

use feed_reading::FeedFault;
use gw_base::Feed;
use std::alloc::Global;

/// The feed that the bytes mean, or exactly the fault that they have (GTFS Realtime, FeedMessage). `Memory` is the one
/// answer that may come at any bytes. A header and written entities, of which none is too long, are read again as the
/// full dataset of just these.
#[inline(always)]
pub fn read_feed(alloc: Global, bytes: &[u8]) -> Result<Feed, FeedFault>
    ensures means { IfOk result (λ feed. MeansFeed bytes.now feed) }
    ensures no_fault { IfOk result (λ _. (fault : FeedFault) → ¬ HasFault bytes.now fault) }
    ensures only { (other : Feed) → MeansFeed bytes.now other → IfOk result (λ feed. feed ≡ other) }
    ensures fault { IfErr result (λ fault. IsTold bytes.now fault) }
    ensures again { (moment : ℤ) (entities : List Entity) → IsMoment moment
        → AllByRecursion IsReadable entities → bytes.now ≡ written_feed moment entities
        → MatchResult result (λ feed. feed ≡ full_dataset moment entities)
        (λ fault. fault ≡ FeedFault.Memory) }
{
    feed_reading::read_feed(alloc, bytes)
}
