//! What holds a gateway. The definitions are those of `specs/Holding.antt`.
ghost use Rattle.std.specs.Prelude.{◌≡◌, ◌≤◌, ◌++◌, true, List, [], IfOk};
ghost use Rattle.gw_base.specs.Count.{Counts};
ghost use Rattle.gw_base.specs.Limits.{body_limit};
ghost use Rattle.gateway_core.specs.Arrivals.{Arrival};
ghost use Rattle.gateway_core.specs.Standing.{Stands};
ghost use Rattle.gateway_core.specs.Taking.{report_json};
ghost use Rattle.gateway_server.specs.Holding as spec;

use crate::not_taken::NotTaken;
use door_talk::TakesBody;
use gateway_core::{Accepted, Gateway};
use gw_base::{Kind, Moment};
use std::alloc::Global;

/// What holds a gateway: it lends it, and takes for it a body that was posted and came whole. What that needs besides
/// is `K`, as a disk on which bodies are kept before they are taken; a gateway by itself keeps none and needs nothing.
pub trait HoldsGateway<K> {
    ghost use Rattle.std.specs.Prelude.{◌≡◌, ◌≤◌, ◌++◌, ℕ, ℤ, true, List, [], IfOk};
    ghost use Rattle.delivery_journal.specs.Kept.{KeptBody};
    ghost use Rattle.gateway_server.specs.Holding.{Held, Room};

    /// What takes the body of a POST while it arrives.
    type Body: TakesBody<Gateway>;

    /// What is held, as contracts see it.
    ghost held: { Self → Held };

    /// The room for the bodies that are kept.
    ghost room: { Room };

    /// It is ready to take a body over what that needs.
    ghost is_ready: { Self → K → Type 0 };

    /// How many faults were met of what it needs. The count never falls, and stands still at the last value of a u64.
    ghost faults: { K → ℕ };

    /// What became of what it needs since a moment, while these bodies were taken one after the other, and then keeping
    /// those failed, of which there is one at most: as what a crash leaves of a disk.
    ghost keeps: { K → List KeptBody → List KeptBody → Self → K → Type 0 };

    /// The gateway, lent to who reads from it.
    fn gateway(&self) -> &Gateway
        ensures lends { result.now ≡ (held self.now).gate };

    /// Whether it can take more.
    fn is_sound(&self) -> bool
        ensures value { result ≡ (held self.now).is_sound };

    /// Takes a body of a kind that was posted at a moment, has at most 16,777,216 bytes and came whole. Where it is
    /// kept before, it isn't taken unless that is done: Err with Full exactly where there is no room for it, and with
    /// Unkept only where the count of faults rose, after which nothing more is taken. A gateway that didn't take a body
    /// is as before.
    fn take(
        &mut self,
        alloc: Global,
        beside: &mut K,
        posted: &mut Self::Body,
        kind: Kind,
        moment: Moment,
    ) -> Result<Accepted, NotTaken>
        requires stands { (bytes : List ℕ) × Self.Body.stands (held self.old).gate posted.old moment kind bytes }
        requires small { Self.Body.taken posted.old ≤ body_limit }
        requires sound { (held self.old).is_sound ≡ true }
        requires ready { is_ready self.old beside.old }
        ensures takes { (arrivals : List Arrival) → Stands (held self.old).gate arrivals
            → (bytes : List ℕ) → Self.Body.stands (held self.old).gate posted.old moment kind bytes
            → spec.TakesFirst room (held self.old) arrivals moment kind bytes result (held self.new) }
        ensures left { spec.IsLeft (held self.old) result (held self.new) }
        ensures text { IfOk result (λ accepted. accepted.text ≡ report_json accepted.report) }
        ensures setting { (held self.new).gate.setting ≡ (held self.old).gate.setting }
        ensures small { Self.Body.taken posted.new ≤ Self.Body.taken posted.old }
        ensures ready { (held self.new).is_sound ≡ true → is_ready self.new beside.new }
        ensures keeps { (bytes : List ℕ) → Self.Body.stands (held self.old).gate posted.old moment kind bytes
            → (first : K) (taken : List KeptBody) → keeps first taken [] self.old beside.old
            → keeps first (taken ++ spec.taken_of result (record { kind = kind; moment = moment; body = bytes }))
            (spec.failed_of result (record { kind = kind; moment = moment; body = bytes })) self.new beside.new }
        ensures counts { Counts (spec.IsUnkept result) (faults beside.old) (faults beside.new) };

    /// Lets go of what was posted, and leaves what is used again for the next body.
    fn let_go(alloc: Global, posted: &mut Self::Body)
        ensures small { Self.Body.taken posted.new ≤ Self.Body.taken posted.old };
}
