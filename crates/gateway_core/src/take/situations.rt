//! Deliveries of situations that arrive. The functions meet `specs/SituationSteps.antt`.
ghost use Rattle.std.specs.Prelude.{◌≡◌, List, map, IfErr, IfOk, OnErr};
ghost use Rattle.std.specs.Cmp.Lexicographic.{slice_cmp};
ghost use Rattle.std.specs.Ordering.{nat_cmp};
ghost use Rattle.feed_index.specs.Entries.{put_all};
ghost use Rattle.journey_model.specs.declared.situation.Situation as of_journeys;
ghost use Rattle.siri_json.specs.declared.delivery.DeliveryFault.TheVariants as DeliveryFault;
ghost use Rattle.gateway_core.specs.Arrivals.{Arrival};
ghost use Rattle.gateway_core.specs.Changes as changes;
ghost use Rattle.gateway_core.specs.SituationSteps as spec;
ghost use Rattle.gateway_core.specs.Standing.{KeepsSituations, Stands, situation_seen};
ghost use Rattle.gateway_core.specs.Taking.{SituationsAnswer, report_json};

use crate::accepted::{Accepted, TakeFault};
use crate::gateway::Gateway;
use crate::items::situations::SituationTaking;
use crate::items::tally::Tally;
use crate::keys::Edition;
use crate::report_text;
use crate::rolling::{WindowMove, window_move};
use crate::setting::Setting;
use crate::state::{Change, News, Prepared, State};
use feed_index::{Batch, Draft, FeedIndex};
use gw_base::{Moment, Text};
use journey_model::{Context, Report};
use siri_situations::hand_on_situations;
use std::alloc::{AllocError, Global};

// What is answered with a report.
fn with_text(alloc: Global, report: Report) -> Result<Accepted, TakeFault>
    ensures report { IfOk result (λ accepted. accepted.report ≡ report) }
    ensures text { IfOk result (λ accepted. accepted.text ≡ report_json accepted.report) }
    ensures memory { IfErr result (λ fault. fault ≡ DeliveryFault.Memory) }
{
    match report_text::report_json(alloc, &report) {
        Ok(text) => Ok(Accepted { report, text }),
        Err(AllocError) => Err(TakeFault::Memory),
    }
}

// What is answered to a delivery that is taken, and the alerts that are to be put.
#[derive(Drop)]
struct Made {
    accepted: Accepted,
    batch: Batch<Text, Edition>,
}

// What a delivery of situations makes over those that are kept.
fn made_of(
    alloc: Global,
    body: &[u8],
    context: &Context<'_>,
    kept: &FeedIndex<Text, Edition>,
) -> Result<Made, TakeFault>
    ensures takes { (before : List of_journeys.Situation)
        → KeepsSituations context.now.table before (map situation_seen kept.now.entries)
        → IfOk result (λ made. spec.TakesBody context.now before body.now
        (map situation_seen (put_all (slice_cmp nat_cmp) kept.now.entries made.batch.entries))
        made.accepted.report) }
    ensures refuses { IfErr result (spec.IsRefused context.now body.now) }
    ensures text { IfOk result (λ made. made.accepted.text ≡ report_json made.accepted.report) }
{
    let mut taking = SituationTaking {
        draft: Draft::over(alloc, kept, 0),
        tally: Tally::new(alloc),
    };
    match hand_on_situations(alloc, body, context, &mut taking) {
        Ok(()) => {}
        Err(fault) => return Err(fault),
    }
    let SituationTaking { draft, tally } = taking;
    match with_text(alloc, tally.into_report()) {
        Ok(accepted) => Ok(Made {
            accepted,
            batch: draft.into_batch(),
        }),
        Err(fault) => Err(fault),
    }
}

/// Reads and judges a delivery of situations that arrives at a moment, and takes all memory for what it changes. All
/// that is kept stays as it is.
pub(crate) fn prepare_situations(
    alloc: Global,
    setting: &Setting,
    state: &mut State,
    body: &[u8],
    moment: Moment,
) -> Result<Prepared, TakeFault>
    requires own { changes.IsWindowOf setting.now state.old.window }
    ensures same { changes.IsSame state.old state.new }
    ensures ready { IfOk result (changes.IsReady setting.now state.new) }
    ensures answers { (arrivals : List Arrival) → Stands (changes.kept_of setting.now state.old) arrivals
        → changes.WillAnswer setting.now state.new
        (SituationsAnswer (changes.kept_of setting.now state.old) arrivals moment body.now) result }
    ensures text { IfOk result (λ one. one.accepted.text ≡ report_json one.accepted.report) }
{
    let WindowMove { window, expired } = window_move(setting, state, moment);
    let context = setting.context_over(&window);
    let Made { accepted, batch } = match made_of(alloc, body, &context, &state.situations) {
        Ok(made) => made,
        Err(fault) => return Err(fault),
    };
    let change = Change {
        window,
        expired,
        news: News::Situations(batch),
    };
    match state.prepare(&change) {
        Ok(()) => Ok(Prepared { accepted, change }),
        Err(AllocError) => Err(TakeFault::Memory),
    }
}

impl Gateway {
    /// Takes a delivery of situations (SIRI 2.0, SituationExchangeDelivery), as `take_estimated` takes one of journeys:
    /// a situation whose alert has a body of more than 65,536 bytes is set aside too, and one without room is set aside
    /// as Full. NotJson and NotDelivery come as there, Memory for want of memory. After a refusal all is as before.
    pub fn take_situations(
        &mut self,
        alloc: Global,
        body: &[u8],
        moment: Moment,
    ) -> Result<Accepted, TakeFault>
        ensures takes { (arrivals : List Arrival) → Stands self.old arrivals
            → SituationsAnswer self.old arrivals moment body.now result self.new }
        ensures text { IfOk result (λ accepted. accepted.text ≡ report_json accepted.report) }
        ensures setting { self.new.setting ≡ self.old.setting }
        ensures refused { OnErr result (self.new ≡ self.old) }
    {
        let Prepared { accepted, change } = match prepare_situations(
            alloc,
            &self.setting,
            &mut self.state,
            body,
            moment,
        ) {
            Ok(prepared) => prepared,
            Err(fault) => return Err(fault),
        };
        self.state.commit(change);
        Ok(accepted)
    }
}
