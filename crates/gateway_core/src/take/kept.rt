//! A body that is kept before it is taken. The definitions are those of `specs/KeptFirst.antt`.
ghost use Rattle.std.specs.Prelude.{◌≡◌, ◌≤◌, List, length, IfOk, IfSome, IsSomeAnd, OnErr};
ghost use Rattle.gw_base.specs.Count.{Counts};
ghost use Rattle.gw_base.specs.Limits.{body_limit};
ghost use Rattle.gateway_core.specs.Arrivals.{Arrival};
ghost use Rattle.gateway_core.specs.Before as keeping;
ghost use Rattle.gateway_core.specs.Bodies.{Takes};
ghost use Rattle.gateway_core.specs.Changes as changes;
ghost use Rattle.gateway_core.specs.KeptFirst as spec;
ghost use Rattle.gateway_core.specs.Standing.{Stands};
ghost use Rattle.gateway_core.specs.Taking.{report_json};

use crate::accepted::Accepted;
use crate::before::{Before, KeepFault};
use crate::gateway::Gateway;
use crate::setting::Setting;
use crate::state::{Prepared, State};
use crate::take::body::{BodyRefusal, of_delivery, of_feed};
use crate::take::feed::prepare_feed;
use crate::take::journeys::prepare_journeys;
use crate::take::situations::prepare_situations;
use feed_messages::FeedFault;
use gw_base::{Kind, Member, Moment};
use std::alloc::Global;

/// Why a body isn't taken that is to be kept first.
#[derive(Debug, Drop)]
pub enum KeptFault {
    /// It isn't JSON.
    NotJson,
    /// It is no delivery: this member is missing or has a wrong form.
    NotDelivery(Member),
    /// Its bytes mean no feed, for this fault, which is never want of memory.
    Feed(FeedFault),
    /// It is a feed that says only what has changed (GTFS Realtime, FeedHeader, DIFFERENTIAL).
    Differential,
    /// It is a feed whose journeys have so many calls, more than 400,000.
    TooManyCalls(u64),
    /// It would be taken, and keeping it failed.
    Unkept,
    /// It would be taken, and there is no room to keep it after what is kept, which ends at this place, in bytes.
    Full(u64),
    /// Want of memory.
    Memory,
}

// Why a body is refused before it is kept.
fn of_refusal(refusal: BodyRefusal) -> KeptFault
    ensures { result ≡ spec.of_refusal refusal }
{
    match refusal {
        BodyRefusal::NotJson => KeptFault::NotJson,
        BodyRefusal::NotDelivery(member) => KeptFault::NotDelivery(member),
        BodyRefusal::Feed(fault) => KeptFault::Feed(fault),
        BodyRefusal::Differential => KeptFault::Differential,
        BodyRefusal::TooManyCalls(calls) => KeptFault::TooManyCalls(calls),
        BodyRefusal::Memory => KeptFault::Memory,
    }
}

// Why a body isn't kept.
fn of_keep(fault: KeepFault) -> KeptFault
    ensures { result ≡ spec.of_keep fault }
{
    match fault {
        KeepFault::Failed => KeptFault::Unkept,
        KeepFault::Full(end) => KeptFault::Full(end),
    }
}

// Reads and judges a body of any kind that arrives whole at a moment, and takes all memory for what it changes. All
// that is kept stays as it is.
fn prepare(
    alloc: Global,
    setting: &Setting,
    state: &mut State,
    kind: Kind,
    body: &[u8],
    moment: Moment,
) -> Result<Prepared, BodyRefusal>
    requires own { changes.IsWindowOf setting.now state.old.window }
    requires small { length body.now ≤ body_limit }
    ensures same { changes.IsSame state.old state.new }
    ensures ready { IfOk result (changes.IsReady setting.now state.new) }
    ensures answers { (arrivals : List Arrival) → Stands (changes.kept_of setting.now state.old) arrivals
        → changes.WillAnswer setting.now state.new
        (Takes (changes.kept_of setting.now state.old) arrivals moment kind body.now) result }
    ensures text { IfOk result (λ one. one.accepted.text ≡ report_json one.accepted.report) }
{
    match kind {
        Kind::Estimated => of_delivery(prepare_journeys(alloc, setting, state, body, moment)),
        Kind::Situations => of_delivery(prepare_situations(alloc, setting, state, body, moment)),
        Kind::Feed => of_feed(prepare_feed(alloc, setting, state, body, moment)),
    }
}

impl Gateway {
    /// Takes a body of any kind that arrives whole at a moment, as `take` does, once `before` has kept it: `keep` is
    /// called only where the body would be taken, once, after all memory is taken and before anything changes. Err as
    /// `take` refuses a body; Unkept exactly where `keep` failed, Full exactly where it answered so. After each of them
    /// the gateway is as before, and `before` too where it wasn't called.
    pub fn take_kept<B: Before>(
        &mut self,
        alloc: Global,
        kind: Kind,
        body: &[u8],
        moment: Moment,
        before: &mut B,
    ) -> Result<Accepted, KeptFault>
        requires small { length body.now ≤ body_limit }
        requires ready { B.is_ready before.old }
        ensures takes { (arrivals : List Arrival) → Stands self.old arrivals
            → spec.TakesKept self.old arrivals moment kind body.now result self.new }
        ensures keeps { spec.KeepsOnce (λ old answer now. B.keeps old kind moment body.now answer now)
            before.old (spec.keep_answer result) before.new }
        ensures full { IfSome (spec.keep_answer result)
            (keeping.IsFullExactly (B.full before.old (length body.now))) }
        ensures ready { spec.UnlessItFailed (spec.keep_answer result) (B.is_ready before.new) }
        ensures counts { Counts (IsSomeAnd (spec.keep_answer result) keeping.HasFailed)
            (B.faults before.old) (B.faults before.new) }
        ensures text { IfOk result (λ accepted. accepted.text ≡ report_json accepted.report) }
        ensures setting { self.new.setting ≡ self.old.setting }
        ensures refused { OnErr result (self.new ≡ self.old) }
    {
        let Prepared { accepted, change } = match prepare(
            alloc,
            &self.setting,
            &mut self.state,
            kind,
            body,
            moment,
        ) {
            Ok(prepared) => prepared,
            Err(refusal) => return Err(of_refusal(refusal)),
        };
        match before.keep(kind, moment, body) {
            Ok(()) => {}
            Err(fault) => return Err(of_keep(fault)),
        }
        self.state.commit(change);
        Ok(accepted)
    }
}
