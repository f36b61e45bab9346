//! What keeps a body before a gateway takes it, as a journal does. The definitions are those of `specs/Before.antt`.
ghost use Rattle.std.specs.Prelude.{◌≡◌, ◌≤◌, length};
ghost use Rattle.gw_base.specs.Count.{Counts};
ghost use Rattle.gw_base.specs.Limits.{body_limit};
ghost use Rattle.gateway_core.specs.Before as spec;

use gw_base::{Kind, Moment};

/// Why a body isn't kept.
#[derive(Clone, Copy, Debug, PartialEq, Eq)]
pub enum KeepFault {
    /// A call to the outside failed. The count of faults rose.
    Failed,
    /// There is no room for the body after what is kept, which ends at this place, in bytes. Nothing was done.
    Full(u64),
}

/// Something that keeps a body, its kind and its moment before the body is taken, so that what is taken can be taken
/// again from what is kept.
pub trait Before {
    ghost use Rattle.std.specs.Prelude.{◌≡◌, ◌≤◌, ℕ, ℤ, List, Option, Result, length};
    ghost use Rattle.gw_base.specs.declared.kind.Kind as kinds;
    ghost use Rattle.gateway_core.specs.declared.before.KeepFault as keep_faults;

    /// How many faults it met. The count never falls, and stands still at the last value of a u64.
    ghost faults: { Self → ℕ };

    /// It is ready to keep a body.
    ghost is_ready: { Self → Type 0 };

    /// The place at which what is kept ends, in bytes, where a body of so many bytes is refused as full.
    ghost full: { Self → ℕ → Option ℕ };

    /// What a call of `keep` did: the value before, the kind, the moment in seconds since 1970 and the body, what was
    /// answered, and the value after.
    ghost keeps: { Self → kinds.Kind → ℤ → List ℕ → Result (Unit {0}) keep_faults.KeepFault → Self → Type 0 };

    /// Keeps a body of a kind that arrives at a moment, of at most 16,777,216 bytes. Err with Full exactly where the
    /// body is refused as full, and with Failed only where the count of faults rose; after Failed it may not be ready.
    fn keep(&mut self, kind: Kind, moment: Moment, body: &[u8]) -> Result<(), KeepFault>
        requires ready { is_ready self.old }
        requires small { length body.now ≤ body_limit }
        ensures keeps { keeps self.old kind moment body.now result self.new }
        ensures ready { spec.UnlessFailed result (is_ready self.new) }
        ensures full { spec.IsFullExactly (full self.old (length body.now)) result }
        ensures counts { Counts (spec.HasFailed result) (faults self.old) (faults self.new) };
}
