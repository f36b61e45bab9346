//! A body of any kind. The definitions are those of `specs/Bodies.antt`.
ghost use Rattle.std.specs.Prelude.{◌≡◌, ℕ, List, IfOk, OnErr};
ghost use Rattle.gw_base.specs.declared.kind.Kind as kinds;
ghost use Rattle.gateway_core.specs.Arrivals.{Arrival};
ghost use Rattle.gateway_core.specs.Bodies as spec;
ghost use Rattle.gateway_core.specs.Standing.{Stands};
ghost use Rattle.gateway_core.specs.Taking.{report_json};

use crate::accepted::{Accepted, FeedRefusal, TakeFault};
use crate::arriving_feed::FeedTaking;
use crate::gateway::Gateway;
use feed_messages::FeedFault;
use gw_base::{Member, Moment};
use std::alloc::Global;

/// A body that came whole: the bytes of a delivery, or a feed that was read while it arrived.
#[derive(Drop)]
pub enum Body<'b> {
    /// A delivery of estimated timetables (SIRI 2.0, EstimatedTimetableDelivery).
    Estimated(&'b [u8]),
    /// A delivery of situations (SIRI 2.0, SituationExchangeDelivery).
    Situations(&'b [u8]),
    /// A feed (GTFS Realtime, FeedMessage).
    Feed(FeedTaking),
}

/// Why a body is refused.
#[derive(Debug, Drop)]
pub enum BodyRefusal {
    /// It isn't JSON.
    NotJson,
    /// It is no delivery: this member is missing or has a wrong form.
    NotDelivery(Member),
    /// Its bytes mean no feed, for this fault.
    Feed(FeedFault),
    /// It is a feed that says only what has changed (GTFS Realtime, FeedHeader, DIFFERENTIAL).
    Differential,
    /// It is a feed whose journeys have so many calls, more than 400,000.
    TooManyCalls(u64),
    /// Want of memory.
    Memory,
}

/// What is answered to a delivery, as to a body of any kind.
pub(crate) fn of_delivery<T: Drop>(answer: Result<T, TakeFault>) -> Result<T, BodyRefusal>
    ensures { result ≡ spec.of_delivery answer }
{
    match answer {
        Ok(one) => Ok(one),
        Err(TakeFault::NotJson) => Err(BodyRefusal::NotJson),
        Err(TakeFault::NotDelivery(member)) => Err(BodyRefusal::NotDelivery(member)),
        Err(TakeFault::Memory) => Err(BodyRefusal::Memory),
    }
}

/// What is answered to a feed, as to a body of any kind.
pub(crate) fn of_feed<T: Drop>(answer: Result<T, FeedRefusal>) -> Result<T, BodyRefusal>
    ensures { result ≡ spec.of_feed answer }
{
    match answer {
        Ok(one) => Ok(one),
        Err(FeedRefusal::Feed(fault)) => Err(BodyRefusal::Feed(fault)),
        Err(FeedRefusal::Differential) => Err(BodyRefusal::Differential),
        Err(FeedRefusal::TooManyCalls(calls)) => Err(BodyRefusal::TooManyCalls(calls)),
        Err(FeedRefusal::Memory) => Err(BodyRefusal::Memory),
    }
}

impl Gateway {
    /// Takes a body of any kind that arrives at a moment, as `take_estimated`, `take_situations` and `end_feed` do.
    /// After a refusal all is as before.
    pub fn take(
        &mut self,
        alloc: Global,
        body: Body<'_>,
        moment: Moment,
    ) -> Result<Accepted, BodyRefusal>
        requires stands { (kind : kinds.Kind) × (bytes : List ℕ) × spec.IsBody self.old moment body kind bytes }
        ensures takes { (arrivals : List Arrival) → Stands self.old arrivals
            → (kind : kinds.Kind) (bytes : List ℕ) → spec.IsBody self.old moment body.entry kind bytes
            → spec.Takes self.old arrivals moment kind bytes result self.new }
        ensures text { IfOk result (λ accepted. accepted.text ≡ report_json accepted.report) }
        ensures setting { self.new.setting ≡ self.old.setting }
        ensures refused { OnErr result (self.new ≡ self.old) }
    {
        match body {
            Body::Estimated(bytes) => of_delivery(self.take_estimated(alloc, bytes, moment)),
            Body::Situations(bytes) => of_delivery(self.take_situations(alloc, bytes, moment)),
            Body::Feed(feed) => of_feed(self.end_feed(alloc, feed)),
        }
    }
}
