//! The laws of what a gateway keeps and serves: contracts of functions that change nothing. They are about the
//! definitions of `specs/Standing.antt`, `Recording.antt`, `Feeds.antt` and `Gives.antt`.
ghost use Rattle.std.specs.Prelude.{◌≡◌, ℕ, ℤ, List};
ghost use Rattle.gw_base.specs.Moments.{IsMoment};
ghost use Rattle.gw_base.specs.declared.kind.Kind.{Kind};
ghost use Rattle.gw_base.specs.declared.messages.Feed.{Feed};
ghost use Rattle.journey_model.specs.Records.{Recorded};
ghost use Rattle.journey_model.specs.Schedules.{Schedule};
ghost use Rattle.journey_model.specs.declared.report.Report.{Report};
ghost use Rattle.journey_model.specs.declared.situation.Situation.{Situation};
ghost use Rattle.reverse_calls.specs.Siri.{IsSiri};
ghost use Rattle.gateway_core.specs.Arrivals.{Arrival, Given, moments_of, present, schedule_at};
ghost use Rattle.gateway_core.specs.Bodies.{Brings};
ghost use Rattle.gateway_core.specs.Feeds.{CountAlike, IsRebuilt};
ghost use Rattle.gateway_core.specs.Gives.{GivesEach};
ghost use Rattle.gateway_core.specs.Recording.{AreDecided, ArriveAlike, IsRebuiltOf};
ghost use Rattle.gateway_core.specs.Standing.{Kept, Stands, served};
ghost use Rattle.gateway_core.specs.declared.setting.Setting as settings;

use crate::gateway::Gateway;
use feed_messages::header_bytes;
use gw_base::Moment;

/// The feed that a gateway serves at a moment is rebuilt of what arrived, and gives each journey its latest reading,
/// whatever it is that the gateway stands for.
pub fn serves_what_arrived_law(gate: &Gateway, moment: Moment)
    ensures rebuilt { (arrivals : List Arrival) → Stands gate.now arrivals
        → IsRebuiltOf gate.now.setting moment arrivals (served moment gate.now) }
    ensures gives { (arrivals : List Arrival) → Stands gate.now arrivals
        → GivesEach moment (schedule_at gate.now.setting (moments_of arrivals)) (present gate.now.setting arrivals)
        (served moment gate.now) }
{
    // The header means the feed without entities, at each moment that there is.
    let _header = header_bytes(moment);
    gate.setting.table.soundness_law();
}

/// The moments of recording decide (SIRI 2.0, RecordedAtTime and Version): of the same records and situations,
/// in any two orders of arrival, the same feed is rebuilt at each moment, byte for byte.
pub fn recording_decides_law()
    ensures rebuilt { (setting : settings.Setting) (arrivals others : List Arrival) (at : ℤ) (feed : List ℕ)
        → ArriveAlike setting arrivals others → AreDecided arrivals
        → IsRebuiltOf setting at arrivals feed → IsRebuiltOf setting at others feed }
    ensures equal { (setting : settings.Setting) (arrivals others : List Arrival) (at : ℤ) (feed other : List ℕ)
        → ArriveAlike setting arrivals others → AreDecided arrivals
        → IsRebuiltOf setting at arrivals feed → IsRebuiltOf setting at others other → feed ≡ other }
{}

/// Two feeds that are rebuilt at one moment from the same records and situations are equal byte for byte; and so are
/// those that are rebuilt from others, of which the same count.
pub fn the_rebuilt_feed_is_one_law()
    ensures one { (at : ℤ) (schedule : Schedule) (records : List Recorded) (situations : List Situation)
        (feed other : List ℕ)
        → IsRebuilt at schedule records situations feed → IsRebuilt at schedule records situations other
        → feed ≡ other }
    ensures alike { (at : ℤ) (schedule : Schedule) (records others : List Recorded)
        (situations further : List Situation) (feed other : List ℕ)
        → CountAlike records others situations further → IsRebuilt at schedule records situations feed
        → IsRebuilt at schedule others further other → feed ≡ other }
{}

/// A feed has one SIRI text at a moment, and one report, over what its journeys are read over.
pub fn the_siri_text_is_one_law()
    ensures { (schedule : Schedule) (given : Feed) (moment : ℤ) (text other : List ℕ) (report another : Report)
        → IsSiri schedule given moment text report → IsSiri schedule given moment other another
        → (text ≡ other) × (report ≡ another) }
{}

/// A body that arrives at a moment after the same arrivals brings one thing, with one report. So a call that is made
/// again after a refusal is answered with the report with which it would have been.
pub fn what_a_body_brings_is_one_law()
    ensures { (setting : settings.Setting) (arrivals : List Arrival) (moment : ℤ) (of : Kind) (bytes : List ℕ)
        (report other : Report) (given another : Given)
        → Brings setting arrivals moment of bytes report given
        → Brings setting arrivals moment of bytes other another
        → (report ≡ other) × (given ≡ another) }
{}

/// What stands for the same arrivals over one setting has the same window, keeps the same and serves the same bytes,
/// those of the feed and those of the SIRI text. And where the moments of recording and the versions decide (SIRI 2.0,
/// RecordedAtTime and Version), what stands for the same records and situations in any two orders of arrival, with
/// equal windows, serves the same bytes.
pub fn what_is_served_is_one_law()
    ensures window { (kept other : Kept) (arrivals : List Arrival) → kept.setting ≡ other.setting
        → Stands kept arrivals → Stands other arrivals → kept.window ≡ other.window }
    ensures journeys { (kept other : Kept) (arrivals : List Arrival) → kept.setting ≡ other.setting
        → Stands kept arrivals → Stands other arrivals → kept.journeys ≡ other.journeys }
    ensures situations { (kept other : Kept) (arrivals : List Arrival) → kept.setting ≡ other.setting
        → Stands kept arrivals → Stands other arrivals → kept.situations ≡ other.situations }
    ensures served { (kept other : Kept) (arrivals : List Arrival) (at : ℤ) → kept.setting ≡ other.setting
        → Stands kept arrivals → Stands other arrivals → served at kept ≡ served at other }
    ensures text { (kept other : Kept) (arrivals : List Arrival) → kept.setting ≡ other.setting
        → Stands kept arrivals → Stands other arrivals → kept.text ≡ other.text }
    ensures alike { (kept other : Kept) (arrivals others : List Arrival) (at : ℤ) → IsMoment at
        → kept.setting ≡ other.setting → ArriveAlike kept.setting arrivals others → AreDecided arrivals
        → Stands kept arrivals → Stands other others → served at kept ≡ served at other }
{}
