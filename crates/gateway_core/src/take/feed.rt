//! Feeds that arrive. The functions meet `specs/FeedTexts.antt`.
ghost use Rattle.std.specs.Prelude.{◌≡◌, ◌≤◌, ◌∷◌, [], ℕ, List, length, IfErr, IfOk, OnErr};
ghost use Rattle.gw_base.specs.declared.messages.Entity.{Entity};
ghost use Rattle.gw_base.specs.Limits.{body_limit};
ghost use Rattle.propagation.specs.Folding as folding;
ghost use Rattle.gateway_core.specs.Arrivals.{Arrival, moments_of, window_at};
ghost use Rattle.gateway_core.specs.Arriving.{Reads, StandsFor};
ghost use Rattle.gateway_core.specs.Changes as changes;
ghost use Rattle.gateway_core.specs.FeedTexts as spec;
ghost use Rattle.gateway_core.specs.Standing.{Stands};
ghost use Rattle.gateway_core.specs.Taking.{FeedAnswer, report_json};

use crate::accepted::{Accepted, FeedRefusal};
use crate::arriving_feed::FeedTaking;
use crate::gateway::Gateway;
use crate::report_text;
use crate::rolling::{WindowMove, window_move};
use crate::setting::Setting;
use crate::state::{Change, News, Prepared, State};
use feed_messages::{FeedFault, FeedReader};
use gw_base::incrementality::DIFFERENTIAL;
use gw_base::{Bytes, FeedHead, Moment};
use journey_model::{Context, Report};
use propagation::ReadingFold;
use reverse_calls::{ReadingsFault, siri_of_readings};
use std::alloc::{AllocError, Global};

// The refusal of bytes that have a fault.
fn of_bytes(fault: FeedFault) -> FeedRefusal
    ensures { result ≡ spec.of_bytes fault }
{
    match fault {
        FeedFault::EntityTooLong(_) => FeedRefusal::Feed(fault),
        FeedFault::Wire(_) => FeedRefusal::Feed(fault),
        FeedFault::NotText(_) => FeedRefusal::Feed(fault),
        FeedFault::MissingField(_, _) => FeedRefusal::Feed(fault),
        FeedFault::Memory => FeedRefusal::Memory,
    }
}

// What is answered to the end of a feed of this head, once its bytes have no fault.
fn of_head(
    alloc: Global,
    context: &Context<'_>,
    moment: Moment,
    head: &FeedHead,
    fold: ReadingFold,
) -> Result<(Bytes, Report), FeedRefusal>
    requires stands { (given : List Entity) × folding.StandsFor context.now fold given }
    ensures { (given : List Entity) → folding.StandsFor context.now fold given
        → spec.IsEnded context.now moment (folding.feed_with head.now given) result }
{
    if head.incrementality == DIFFERENTIAL {
        return Err(FeedRefusal::Differential);
    }
    let reading = match fold.finish(context, head) {
        Ok(reading) => reading,
        Err(AllocError) => return Err(FeedRefusal::Memory),
    };
    match siri_of_readings(alloc, context, &reading, moment) {
        Ok(text) => Ok((text, reading.report)),
        Err(ReadingsFault::TooManyCalls(calls)) => Err(FeedRefusal::TooManyCalls(calls)),
        Err(ReadingsFault::Memory) => Err(FeedRefusal::Memory),
    }
}

// The SIRI text of a feed that arrived, and the report on its entities.
fn siri_text(
    alloc: Global,
    context: &Context<'_>,
    moment: Moment,
    reader: FeedReader,
    fold: ReadingFold,
) -> Result<(Bytes, Report), FeedRefusal>
    requires stands { (bytes : List ℕ) × Reads context.now reader fold bytes }
    ensures says { (bytes : List ℕ) → Reads context.now reader fold bytes
        → IfOk result (λ both. spec.SaysFeed context.now moment bytes both.0 both.1) }
    ensures refuses { (bytes : List ℕ) → Reads context.now reader fold bytes
        → IfErr result (spec.IsRefusedFeed context.now bytes) }
{
    match reader.finish() {
        Ok(head) => of_head(alloc, context, moment, &head, fold),
        Err(fault) => Err(of_bytes(fault)),
    }
}

// The SIRI text of a feed that arrived, the report and its text.
fn read_text(
    alloc: Global,
    context: &Context<'_>,
    moment: Moment,
    reader: FeedReader,
    fold: ReadingFold,
) -> Result<(Bytes, Accepted), FeedRefusal>
    requires stands { (bytes : List ℕ) × Reads context.now reader fold bytes }
    ensures says { (bytes : List ℕ) → Reads context.now reader fold bytes
        → IfOk result (λ both. spec.SaysFeed context.now moment bytes both.0 both.1.report) }
    ensures refuses { (bytes : List ℕ) → Reads context.now reader fold bytes
        → IfErr result (spec.IsRefusedFeed context.now bytes) }
    ensures text { IfOk result (λ both. both.1.text ≡ report_json both.1.report) }
{
    let (siri, report) = match siri_text(alloc, context, moment, reader, fold) {
        Ok(both) => both,
        Err(refusal) => return Err(refusal),
    };
    match report_text::report_json(alloc, &report) {
        Ok(text) => Ok((siri, Accepted { report, text })),
        Err(AllocError) => Err(FeedRefusal::Memory),
    }
}

// Begins to take a feed over what is kept.
fn begin(alloc: Global, setting: &Setting, state: &State, moment: Moment) -> FeedTaking
    requires own { changes.IsWindowOf setting.now state.now.window }
    ensures stands { StandsFor setting.now result [] }
    ensures moment { result.moment ≡ moment }
    ensures window { (arrivals : List Arrival) → Stands (changes.kept_of setting.now state.now) arrivals
        → result.window ≡ window_at setting.now (moment ∷ moments_of arrivals) }
    ensures counted { result.reader.taken ≡ 0 }
{
    let WindowMove { window, expired: _ } = window_move(setting, state, moment);
    FeedTaking {
        moment,
        window,
        reader: FeedReader::make(alloc),
        fold: ReadingFold::make(alloc),
    }
}

// Judges the feed of all the bytes that arrived. For what it changes no more memory is needed.
fn prepare_arrived(
    alloc: Global,
    setting: &Setting,
    state: &State,
    taking: FeedTaking,
) -> Result<Prepared, FeedRefusal>
    requires own { changes.IsWindowOf setting.now state.now.window }
    requires stands { (bytes : List ℕ) × StandsFor setting.now taking bytes }
    ensures ready { IfOk result (changes.IsReady setting.now state.now) }
    ensures answers { (arrivals : List Arrival) → Stands (changes.kept_of setting.now state.now) arrivals
        → taking.window ≡ window_at setting.now (taking.moment ∷ moments_of arrivals)
        → (bytes : List ℕ) → StandsFor setting.now taking bytes
        → changes.WillAnswer setting.now state.now
        (FeedAnswer (changes.kept_of setting.now state.now) arrivals taking.moment bytes) result }
    ensures text { IfOk result (λ one. one.accepted.text ≡ report_json one.accepted.report) }
{
    let FeedTaking {
        moment,
        window: read_over,
        reader,
        fold,
    } = taking;
    let WindowMove { window, expired } = window_move(setting, state, moment);
    let context = setting.context_over(&read_over);
    let (siri, accepted) = match read_text(alloc, &context, moment, reader, fold) {
        Ok(both) => both,
        Err(refusal) => return Err(refusal),
    };
    let change = Change {
        window,
        expired,
        news: News::Text(siri),
    };
    Ok(Prepared { accepted, change })
}

/// Reads and judges a feed that arrives whole at a moment, in one piece. For what it changes no more memory is needed.
pub(crate) fn prepare_feed(
    alloc: Global,
    setting: &Setting,
    state: &State,
    body: &[u8],
    moment: Moment,
) -> Result<Prepared, FeedRefusal>
    requires own { changes.IsWindowOf setting.now state.now.window }
    requires small { length body.now ≤ body_limit }
    ensures ready { IfOk result (changes.IsReady setting.now state.now) }
    ensures answers { (arrivals : List Arrival) → Stands (changes.kept_of setting.now state.now) arrivals
        → changes.WillAnswer setting.now state.now
        (FeedAnswer (changes.kept_of setting.now state.now) arrivals moment body.now) result }
    ensures text { IfOk result (λ one. one.accepted.text ≡ report_json one.accepted.report) }
{
    let mut taking = begin(alloc, setting, state, moment);
    match taking.take_piece(setting, body) {
        Ok(()) => prepare_arrived(alloc, setting, state, taking),
        Err(AllocError) => Err(FeedRefusal::Memory),
    }
}

impl Gateway {
    /// Begins to take a feed (GTFS Realtime, FeedMessage) that arrives from this moment on: no byte of it came yet. Err
    /// for want of memory.
    pub fn begin_feed(&self, alloc: Global, moment: Moment) -> Result<FeedTaking, AllocError>
        ensures stands { IfOk result (λ taking. StandsFor self.now.setting taking []) }
        ensures moment { IfOk result (λ taking. taking.moment ≡ moment) }
        ensures window { (arrivals : List Arrival) → Stands self.now arrivals
            → IfOk result (λ taking. taking.window ≡ window_at self.now.setting (moment ∷ moments_of arrivals)) }
        ensures counted { IfOk result (λ taking. taking.reader.taken ≡ 0) }
    {
        Ok(begin(alloc, &self.setting, &self.state, moment))
    }

    /// Takes the feed of all the bytes that arrived, which has to be a full dataset of at most 400,000 calls; its SIRI
    /// text takes the place of the one before. The gateway is the one at which it began to arrive, and took nothing
    /// since. After a refusal all is as before.
    pub fn end_feed(&mut self, alloc: Global, taking: FeedTaking) -> Result<Accepted, FeedRefusal>
        requires stands { (bytes : List ℕ) × StandsFor self.old.setting taking bytes }
        ensures takes { (arrivals : List Arrival) → Stands self.old arrivals
            → taking.window ≡ window_at self.old.setting (taking.moment ∷ moments_of arrivals)
            → (bytes : List ℕ) → StandsFor self.old.setting taking bytes
            → FeedAnswer self.old arrivals taking.moment bytes result self.new }
        ensures text { IfOk result (λ accepted. accepted.text ≡ report_json accepted.report) }
        ensures setting { self.new.setting ≡ self.old.setting }
        ensures refused { OnErr result (self.new ≡ self.old) }
    {
        let Prepared { accepted, change } = match prepare_arrived(
            alloc,
            &self.setting,
            &self.state,
            taking,
        ) {
            Ok(prepared) => prepared,
            Err(refusal) => return Err(refusal),
        };
        self.state.commit(change);
        Ok(accepted)
    }

    /// Takes a feed (GTFS Realtime, FeedMessage) that arrives whole at a moment, as `begin_feed`, `piece` and
    /// `end_feed` take it. Err with the first fault of its bytes, else Differential, else TooManyCalls; Memory
    /// for want of memory. After a refusal all is as before.
    pub fn take_feed(
        &mut self,
        alloc: Global,
        body: &[u8],
        moment: Moment,
    ) -> Result<Accepted, FeedRefusal>
        requires small { length body.now ≤ body_limit }
        ensures takes { (arrivals : List Arrival) → Stands self.old arrivals
            → FeedAnswer self.old arrivals moment body.now result self.new }
        ensures text { IfOk result (λ accepted. accepted.text ≡ report_json accepted.report) }
        ensures setting { self.new.setting ≡ self.old.setting }
        ensures refused { OnErr result (self.new ≡ self.old) }
    {
        let Prepared { accepted, change } = match prepare_feed(
            alloc,
            &self.setting,
            &self.state,
            body,
            moment,
        ) {
            Ok(prepared) => prepared,
            Err(refusal) => return Err(refusal),
        };
        self.state.commit(change);
        Ok(accepted)
    }
}
