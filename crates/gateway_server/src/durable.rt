//! What a durable gateway does with a posted body, over the disk on which its journal stands. The definitions are
//! those of `specs/Durable.antt`.
ghost use Rattle.std.specs.Prelude.{◌≡◌};
ghost use Rattle.gateway_server.specs.Durable as spec;

use crate::holds_gateway::HoldsGateway;
use crate::not_taken::NotTaken;
use delivery_journal::Disk;
use gateway_core::{Accepted, BodyRefusal, Gateway, KeptFault};
use gateway_durable::{Durable, a_crash_leaves_a_prefix_law};
use gw_base::{Bytes, Kind, Moment};
use std::alloc::Global;

// Why a body isn't taken that wasn't kept.
fn not_taken_for(why: KeptFault) -> NotTaken
    ensures { result ≡ spec.not_taken_for why }
{
    match why {
        KeptFault::NotJson => NotTaken::Refused(BodyRefusal::NotJson),
        KeptFault::NotDelivery(member) => NotTaken::Refused(BodyRefusal::NotDelivery(member)),
        KeptFault::Feed(fault) => NotTaken::Refused(BodyRefusal::Feed(fault)),
        KeptFault::Differential => NotTaken::Refused(BodyRefusal::Differential),
        KeptFault::TooManyCalls(calls) => NotTaken::Refused(BodyRefusal::TooManyCalls(calls)),
        KeptFault::Unkept => NotTaken::Unkept,
        KeptFault::Full(_) => NotTaken::Full,
        KeptFault::Memory => NotTaken::Refused(BodyRefusal::Memory),
    }
}

// The answer to a body that is kept before it is taken.
fn answer_for(answer: Result<Accepted, KeptFault>) -> Result<Accepted, NotTaken>
    ensures { result ≡ spec.answer_for answer }
{
    match answer {
        Ok(accepted) => Ok(accepted),
        Err(why) => Err(not_taken_for(why)),
    }
}

/// A durable gateway, over the disk on which it stands: a body of each kind is held whole, and is on the disk before it
/// is taken.
impl<K: Disk> HoldsGateway<K> for Durable {
    ghost use Rattle.gateway_durable.specs.Standing.{DurableStandsOn};
    ghost use Rattle.gateway_server.specs.Durable.{KeepsSince, held_of, journal_room};

    type Body = Bytes;

    ghost held = { held_of };

    ghost room = { journal_room };

    ghost is_ready = { DurableStandsOn K.told K.may_leave };

    ghost faults = { K.faults };

    ghost keeps = { KeepsSince K.told K.may_leave K.clock K.left_since };

    fn gateway(&self) -> &Gateway {
        self.gate()
    }

    fn is_sound(&self) -> bool {
        Durable::is_sound(self)
    }

    fn take(
        &mut self,
        alloc: Global,
        beside: &mut K,
        posted: &mut Bytes,
        kind: Kind,
        moment: Moment,
    ) -> Result<Accepted, NotTaken> {
        a_crash_leaves_a_prefix_law::<K>();
        let answer = Durable::take(self, alloc, beside, kind, posted.as_slice(), moment);
        answer_for(answer)
    }

    fn let_go(_alloc: Global, posted: &mut Bytes) {
        posted.clear();
    }
}
