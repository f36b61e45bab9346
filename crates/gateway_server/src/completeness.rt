//! The law of completeness, the contract of a function that does nothing. It is about the definitions of
//! `specs/Completeness.antt`.
ghost use Rattle.std.specs.Prelude.{ℕ, Bool, List};
ghost use Rattle.gw_base.specs.Count.{Rose};
ghost use Rattle.gw_base.specs.declared.door.Entry.{Entry};
ghost use Rattle.gateway_core.specs.Arrivals.{Arrival};
ghost use Rattle.gateway_core.specs.declared.setting.Setting as settings;
ghost use Rattle.gateway_server.specs.Completeness.{Completes, CompletesBy};
ghost use Rattle.gateway_server.specs.Log.{IsLawful, IsLawfulBy};

use feed_messages::the_feed_is_one_law;

/// What is well formed is taken, and what is asked for is shown (RFC 9112, section 3; SIRI 2.0, ServiceDelivery; GTFS
/// Realtime, FeedMessage). A connection whose entry is lawful after what arrived ends so, where a door's count of
/// faults didn't rise between two values; and over what keeps bodies where a disk's count didn't rise either.
pub fn what_is_well_formed_is_taken_law()
    ensures taken { (before now : ℕ) (setting : settings.Setting) (arrivals : List Arrival) (entry : Entry)
        → IsLawful (Rose before now) setting arrivals entry → Completes (Rose before now) setting arrivals entry }
    ensures kept { (before now disk_before disk_now : ℕ) (is_full : List ℕ → Bool) (setting : settings.Setting)
        (arrivals : List Arrival) (entry : Entry)
        → IsLawfulBy (Rose before now) (Rose disk_before disk_now) is_full setting arrivals entry
        → CompletesBy (Rose before now) (Rose disk_before disk_now) is_full setting arrivals entry }
{
    // Bytes mean one feed alone, so that the one that is taken is the one that is posted.
    the_feed_is_one_law();
}
