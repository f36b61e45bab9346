//! The laws of kept bodies that are taken again, and of what a crash leaves of several calls: contracts of functions
//! that do nothing. They are about the definitions of `specs/Replays.antt`, `Reopening.antt` and `Runs.antt`.
ghost use Rattle.std.specs.Prelude.{◌≡◌, ◌++◌, [], ℕ, List, Some, Result, Ok};
ghost use Rattle.delivery_journal.specs.Kept.{KeptBody, kept};
ghost use Rattle.gateway_core.specs.Arrivals.{Arrival};
ghost use Rattle.gateway_core.specs.declared.accepted.Accepted as answers;
ghost use Rattle.gateway_core.specs.declared.setting.Setting as settings;
ghost use Rattle.gateway_core.specs.declared.take.kept.KeptFault as faults;
ghost use Rattle.gateway_durable.specs.Reopening.{CanReplay, IsRefusedAt};
ghost use Rattle.gateway_durable.specs.Replays.{Replays};
ghost use Rattle.gateway_durable.specs.Runs.{HasKept, failed_of, taken_of};
ghost use Rattle.gateway_durable.specs.Standing.{DurableGate, DurableStandsOn};
ghost use Rattle.gateway_durable.specs.Taking.{TakesDurably};

use delivery_journal::Disk;
use feed_messages::the_feed_is_one_law;

/// Kept bodies that are taken one after the other, over one setting, give the same each time; those behind them go on
/// from there. Where all can be taken none of them is refused after those before it, but for want of memory.
pub fn kept_bodies_replay_law()
    ensures one { (setting : settings.Setting) (before : List Arrival) (bodies : List KeptBody)
        (now other : List Arrival)
        → Replays setting before bodies now → Replays setting before bodies other → now ≡ other }
    ensures joined { (setting : settings.Setting) (before : List Arrival) (bodies more : List KeptBody)
        (between now : List Arrival)
        → Replays setting before bodies between → Replays setting between more now
        → Replays setting before (bodies ++ more) now }
    ensures never_refused { (setting : settings.Setting) (bodies : List KeptBody) (n : ℕ)
        → CanReplay setting bodies → ¬ IsRefusedAt setting bodies n }
{
    // Bytes mean one feed alone, so that a feed that is taken again gives what it gave.
    the_feed_is_one_law();
}

/// What a crash leaves of several calls on one disk. From a moment at which a durable gateway stands on it, a crash
/// at any moment of the calls that follow leaves the bodies that the file held then, with a prefix of those that were
/// taken since or of which keeping failed, in their order, none skipped and none in part; and they can be taken
/// again. After each call every crash leaves all the bodies that were taken, so that the prefix holds every
/// acknowledged body.
pub fn a_crash_leaves_a_prefix_law<K: Disk>()
    ensures begins { (disk : K) (durable : DurableGate) (file : List ℕ) (bodies : List KeptBody)
        → DurableStandsOn K.told K.may_leave durable disk → K.told disk ≡ Some file → kept file ≡ Ok bodies
        → HasKept K.told K.may_leave K.clock K.left_since disk disk durable.gate.setting bodies [] [] }
    ensures goes_on { (first before after : K) (old now : DurableGate) (new : KeptBody)
        (answer : Result answers.Accepted faults.KeptFault) (bodies taken : List KeptBody)
        → DurableStandsOn K.told K.may_leave old before
        → HasKept K.told K.may_leave K.clock K.left_since first before old.gate.setting bodies taken []
        → TakesDurably K.told K.may_leave K.clock K.left_since K.faults old before new answer now after
        → HasKept K.told K.may_leave K.clock K.left_since first after old.gate.setting bodies
        (taken ++ taken_of answer new) (failed_of answer new) }
{}
