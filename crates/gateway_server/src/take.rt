//! What a gateway by itself does with a posted body. The definitions are those of `specs/Bodies.antt` and
//! `specs/Holding.antt`.
ghost use Rattle.std.specs.Prelude.{◌≡◌, ◌≤◌, ℕ, List, length, IfOk, OnErr};
ghost use Rattle.gw_base.specs.declared.kind.Kind as kinds;
ghost use Rattle.gateway_core.specs.Arrivals.{Arrival};
ghost use Rattle.gateway_core.specs.Bodies.{Takes};
ghost use Rattle.gateway_core.specs.Standing.{Stands};
ghost use Rattle.gateway_core.specs.Taking.{report_json};
ghost use Rattle.gateway_server.specs.Bodies as spec;
ghost use Rattle.gateway_server.specs.Holding.{unless_refused};
ghost use Rattle.gateway_server.specs.Posted.{PostedStands, came};

use crate::holds_gateway::HoldsGateway;
use crate::not_taken::NotTaken;
use crate::posted_body::{PostedBody, emptied};
use feed_messages::FeedFault;
use gateway_core::{Accepted, Body, BodyRefusal, Gateway};
use gw_base::{Bytes, Kind, Moment};
use http_talk::BodyFault;
use std::alloc::Global;

// The fault of a feed's bytes, as it is told.
fn feed_fault(fault: &FeedFault) -> Option<BodyFault>
    ensures { result ≡ spec.feed_fault_of fault.now }
{
    match fault {
        FeedFault::EntityTooLong(at) => Some(BodyFault::EntityTooLong(*at)),
        FeedFault::Wire(fault) => Some(BodyFault::Wire(fault.at, fault.kind)),
        FeedFault::NotText(at) => Some(BodyFault::NotText(*at)),
        FeedFault::MissingField(at, field) => Some(BodyFault::MissingField(*at, *field)),
        FeedFault::Memory => None,
    }
}

/// The fault of a body that is refused for what it holds, and None where it is for want of memory.
pub fn fault_of(why: &BodyRefusal) -> Option<BodyFault>
    ensures { result ≡ spec.fault_of why.now }
{
    match why {
        BodyRefusal::NotJson => Some(BodyFault::NotJson),
        BodyRefusal::NotDelivery(member) => Some(BodyFault::NotDelivery(*member)),
        BodyRefusal::Feed(fault) => feed_fault(fault),
        BodyRefusal::Differential => Some(BodyFault::Differential),
        BodyRefusal::TooManyCalls(calls) => Some(BodyFault::TooManyCalls(*calls)),
        BodyRefusal::Memory => None,
    }
}

// Hands what was posted and came whole to the gateway, and leaves the buffer.
fn take_posted(
    alloc: Global,
    gate: &mut Gateway,
    posted: PostedBody,
    moment: Moment,
    buffer: &mut Bytes,
) -> Result<Accepted, BodyRefusal>
    requires stands { (of : kinds.Kind) × (bytes : List ℕ) × PostedStands gate.old posted moment of bytes }
    ensures takes { (arrivals : List Arrival) → Stands gate.old arrivals
        → (of : kinds.Kind) (bytes : List ℕ) → PostedStands gate.old posted moment of bytes
        → Takes gate.old arrivals moment of bytes result gate.new }
    ensures text { IfOk result (λ accepted. accepted.text ≡ report_json accepted.report) }
    ensures setting { gate.new.setting ≡ gate.old.setting }
    ensures refused { OnErr result (gate.new ≡ gate.old) }
    ensures held { length buffer.new ≤ came posted }
{
    match posted {
        PostedBody::Nothing => unreachable!(),
        PostedBody::Estimated(bytes) => {
            let answer = gate.take(alloc, Body::Estimated(bytes.as_slice()), moment);
            *buffer = bytes;
            answer
        }
        PostedBody::Situations(bytes) => {
            let answer = gate.take(alloc, Body::Situations(bytes.as_slice()), moment);
            *buffer = bytes;
            answer
        }
        PostedBody::Feed(feed, bytes) => {
            *buffer = emptied(bytes);
            gate.take(alloc, Body::Feed(feed), moment)
        }
    }
}

// An answer to a body, which keeps none before it is taken.
fn unless_refused(answer: Result<Accepted, BodyRefusal>) -> Result<Accepted, NotTaken>
    ensures { result ≡ unless_refused answer }
{
    match answer {
        Ok(accepted) => Ok(accepted),
        Err(why) => Err(NotTaken::Refused(why)),
    }
}

/// A gateway by itself: a delivery is held whole, a feed is read on the way, and no body is kept.
impl HoldsGateway<()> for Gateway {
    ghost use Rattle.std.specs.Prelude.{⊤};
    ghost use Rattle.gateway_server.specs.Holding.{bare, keeps_none};

    type Body = PostedBody;

    ghost held = { bare };

    ghost room = { keeps_none };

    ghost is_ready = { λ _ _. ⊤ };

    ghost faults = { λ _. 0 };

    ghost keeps = { λ _ _ _ _ _. ⊤ };

    fn gateway(&self) -> &Gateway {
        self
    }

    fn is_sound(&self) -> bool {
        true
    }

    fn take(
        &mut self,
        alloc: Global,
        _beside: &mut (),
        posted: &mut PostedBody,
        _kind: Kind,
        moment: Moment,
    ) -> Result<Accepted, NotTaken> {
        let whole = std::mem::replace(posted, PostedBody::Nothing);
        let mut buffer = Bytes::new(alloc);
        let answer = take_posted(alloc, self, whole, moment, &mut buffer);
        *posted = PostedBody::with_buffer(buffer);
        unless_refused(answer)
    }

    fn let_go(alloc: Global, posted: &mut PostedBody) {
        let buffer = std::mem::replace(posted, PostedBody::Nothing).into_buffer(alloc);
        *posted = PostedBody::with_buffer(buffer);
    }
}
