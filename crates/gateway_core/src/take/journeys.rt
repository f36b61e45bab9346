//! Deliveries of journeys that arrive. The functions meet `specs/Taking.antt`; what a delivery makes before anything
//! changes is said in `specs/JourneySteps.antt`.
ghost use Rattle.std.specs.Prelude.{◌≡◌, ◌≤◌, drop, filter, length, map, List as Values, IfErr, IfOk, OnErr};
ghost use Rattle.feed_index.specs.Entries.{put_all};
ghost use Rattle.journey_model.specs.Records.{Recorded};
ghost use Rattle.gateway_core.specs.Arrivals.{Arrival, is_within};
ghost use Rattle.gateway_core.specs.Changes as changes;
ghost use Rattle.gateway_core.specs.JourneySteps as spec;
ghost use Rattle.gateway_core.specs.Standing.{KeepsJourneys, Stands, journey_seen};
ghost use Rattle.gateway_core.specs.Taking as taking;

use crate::accepted::{Accepted, TakeFault};
use crate::gateway::Gateway;
use crate::items::journeys::JourneyTaking;
use crate::items::tally::Tally;
use crate::keys::JourneyKey;
use crate::report_text::report_json;
use crate::rolling::{WindowMove, window_move};
use crate::setting::Setting;
use crate::state::{Change, News, Prepared, State};
use feed_index::{Batch, Draft, FeedIndex};
use gw_base::Moment;
use journey_model::Context;
use service_day::Instant;
use siri_calls::hand_on_journeys;
use std::alloc::{AllocError, Global};

// What a delivery makes: what is answered, and the entries that are to be put.
#[derive(Drop)]
struct Made {
    // The report and its text.
    accepted: Accepted,
    // The entries.
    batch: Batch<JourneyKey, Instant>,
}

// What a delivery makes, read over a context and put after what is left of the entries of an index.
fn made_of(
    alloc: Global,
    context: &Context<'_>,
    journeys: &FeedIndex<JourneyKey, Instant>,
    expired: u64,
    body: &[u8],
) -> Result<Made, TakeFault>
    requires within { expired ≤ length journeys.now.entries }
    ensures text { IfOk result (λ made. made.accepted.text ≡ taking.report_json made.accepted.report) }
    ensures makes { (before : Values Recorded)
        → KeepsJourneys context.now
        (filter (is_within context.now.window) before)
        (map journey_seen (drop expired journeys.now.entries))
        → IfOk result (λ made. spec.MakesJourneys context.now before body.now
        made.accepted.report
        (map journey_seen (put_all spec.key_order (drop expired journeys.now.entries) made.batch.entries))) }
    ensures refuses { IfErr result (spec.RefusesJourneys context.now body.now) }
{
    let mut taking = JourneyTaking {
        draft: Draft::over(alloc, journeys, expired),
        tally: Tally::new(alloc),
    };
    match hand_on_journeys(alloc, body, context, &mut taking) {
        Ok(()) => {}
        Err(fault) => return Err(fault),
    }
    let JourneyTaking { draft, tally } = taking;
    let report = tally.into_report();
    let text = report_json(alloc, &report)?;
    Ok(Made {
        accepted: Accepted { report, text },
        batch: draft.into_batch(),
    })
}

/// Reads and judges a delivery of journeys that arrives at a moment, and takes all memory for what it changes. All that
/// is kept stays as it is.
pub(crate) fn prepare_journeys(
    alloc: Global,
    setting: &Setting,
    state: &mut State,
    body: &[u8],
    moment: Moment,
) -> Result<Prepared, TakeFault>
    requires own { changes.IsWindowOf setting.now state.old.window }
    ensures same { changes.IsSame state.old state.new }
    ensures ready { IfOk result (changes.IsReady setting.now state.new) }
    ensures answers { (arrivals : Values Arrival) → Stands (changes.kept_of setting.now state.old) arrivals
        → changes.WillAnswer setting.now state.new
        (taking.JourneysAnswer (changes.kept_of setting.now state.old) arrivals moment body.now) result }
    ensures text { IfOk result (λ one. one.accepted.text ≡ taking.report_json one.accepted.report) }
{
    let WindowMove { window, expired } = window_move(setting, state, moment);
    let context = setting.context_over(&window);
    let Made { accepted, batch } = match made_of(alloc, &context, &state.journeys, expired, body) {
        Ok(made) => made,
        Err(fault) => return Err(fault),
    };
    let change = Change {
        window,
        expired,
        news: News::Journeys(batch),
    };
    match state.prepare(&change) {
        Ok(()) => Ok(Prepared { accepted, change }),
        Err(AllocError) => Err(TakeFault::Memory),
    }
}

impl Gateway {
    /// Takes a delivery of estimated timetables (SIRI 2.0, EstimatedTimetableDelivery) that arrives at a moment: each
    /// journey is taken, or set aside with its first fault, in the window that is there by that moment. NotJson comes
    /// exactly where the body isn't JSON in UTF-8, NotDelivery where the way down to its journeys is broken, Memory
    /// for want of memory. After a refusal all is as before.
    pub fn take_estimated(
        &mut self,
        alloc: Global,
        body: &[u8],
        moment: Moment,
    ) -> Result<Accepted, TakeFault>
        ensures takes { (arrivals : Values Arrival) → Stands self.old arrivals
            → taking.JourneysAnswer self.old arrivals moment body.now result self.new }
        ensures text { IfOk result (λ accepted. accepted.text ≡ taking.report_json accepted.report) }
        ensures setting { self.new.setting ≡ self.old.setting }
        ensures refused { OnErr result (self.new ≡ self.old) }
    {
        let Prepared { accepted, change } = match prepare_journeys(
            alloc,
            &self.setting,
            &mut self.state,
            body,
            moment,
        ) {
            Ok(prepared) => prepared,
            Err(fault) => return Err(fault),
        };
        self.state.commit(change);
        Ok(accepted)
    }
}
