//! Feeds that are there whole are read: what they mean, or the one fault that they have. The quick reader reads nearly
//! all; where it refuses, the finder looks for the fault, and where there is none, the plain reader reads.
ghost use Rattle.std.specs.Prelude.{◌≡◌, IfOk, IfErr};
ghost use Rattle.feed_reading.specs.declared.fault.FeedFault.{FeedFault};
ghost use Rattle.gw_base.specs.declared.messages.Feed.{Feed};
ghost use Rattle.feed_reading.specs.Tables.{MeansFeed};
ghost use Rattle.feed_reading.specs.Faults.{HasFault, IsTold};

use crate::fault::FeedFault;
use crate::finder::first_fault;
use crate::plain::plain_feed;
use crate::plain_fault::PlainFault;
use crate::quick::quick_feed;
use gw_base::Feed;
use std::alloc::Global;

// The fault that the bytes have, or the feed that they mean.
fn checked_feed(alloc: Global, bytes: &[u8]) -> Result<Feed, FeedFault>
    ensures means { IfOk result (λ feed. MeansFeed bytes.now feed) }
    ensures no_fault { IfOk result (λ _. (fault : FeedFault) → ¬ HasFault bytes.now fault) }
    ensures fault { IfErr result (λ fault. IsTold bytes.now fault) }
{
    match first_fault(alloc, bytes) {
        Ok(Some(fault)) => Err(fault),
        Ok(None) => match plain_feed(alloc, bytes) {
            Ok(feed) => Ok(feed),
            Err(PlainFault::Memory) => Err(FeedFault::Memory),
            Err(PlainFault::Meaningless) => unreachable!(),
        },
        Err(_) => Err(FeedFault::Memory),
    }
}

/// The feed that the bytes mean, or exactly the fault that they have (GTFS Realtime, FeedMessage). `Memory` is the one
/// answer that may come at any bytes.
pub fn read_feed(alloc: Global, bytes: &[u8]) -> Result<Feed, FeedFault>
    ensures means { IfOk result (λ feed. MeansFeed bytes.now feed) }
    ensures no_fault { IfOk result (λ _. (fault : FeedFault) → ¬ HasFault bytes.now fault) }
    ensures only { (other : Feed) → MeansFeed bytes.now other → IfOk result (λ feed. feed ≡ other) }
    ensures fault { IfErr result (λ fault. IsTold bytes.now fault) }
{
    match quick_feed(alloc, bytes) {
        Ok(feed) => Ok(feed),
        Err(PlainFault::Memory) => Err(FeedFault::Memory),
        Err(PlainFault::Meaningless) => checked_feed(alloc, bytes),
    }
}
