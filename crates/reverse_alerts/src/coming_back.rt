//! The law that a situation comes back from its alert, the contract of a function that does nothing. It is about the
//! definitions of `specs/Again.antt`.
ghost use Rattle.std.specs.Prelude.{◌≡◌, ℕ, ℤ, List, map, Ok};
ghost use Rattle.gw_base.specs.declared.messages.Feed.{Feed};
ghost use Rattle.serde_json.specs.Data.{Data};
ghost use Rattle.journey_model.specs.declared.situation.Situation.{Situation};
ghost use Rattle.journey_model.specs.declared.report.Report.{Report};
ghost use Rattle.siri_json.specs.declared.delivery.Delivery.{Delivery};
ghost use Rattle.siri_situations.specs.Deliveries.{ReadsSituations};
ghost use Rattle.siri_situations.specs.Situations.{verdict};
ghost use Rattle.alert_map.specs.Alerts.{alert_message};
ghost use Rattle.reverse_alerts.specs.Again.{ComesBack, SaysAlertsOf, served};
ghost use Rattle.reverse_alerts.specs.Sx.{IsSx};

use journey_model::Context;

/// Each situation that is read over a context comes back from the entity with which it is served: that is taken as a
/// situation with an equal alert (SIRI 2.0, PtSituationElement; GTFS Realtime reference, Alert). So for a whole body:
/// the SIRI text of a feed with the entities of its served situations is read as situations with just their alerts.
pub fn what_was_read_comes_back_law(context: &Context<'_>)
    ensures one { (tree : Data) (one : Situation) (unknown : ℕ)
        → verdict context.now tree ≡ Ok (one, unknown)
        → ComesBack context.now.table one }
    ensures whole { (body : List ℕ) (delivery : Delivery Situation) (feed : Feed) (moment : ℤ) (text : List ℕ)
        (report : Report) → ReadsSituations context.now body (Ok delivery)
        → feed.entities ≡ map (alert_message context.now.table) (served delivery.items)
        → IsSx context.now feed moment text report
        → SaysAlertsOf context.now (served delivery.items) text }
{
    context.table.soundness_law();
}
