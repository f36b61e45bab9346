//! A feed while it arrives, of which neither the bytes nor the entities are kept. The definitions are those of
//! `specs/Arriving.antt`.
ghost use Rattle.std.specs.Prelude.{◌≡◌, ◌≤◌, ◌<◌, ◌+◌, ◌++◌, ℕ, List, length, take, IfOk, OnOk};
ghost use Rattle.gw_base.specs.Limits.{body_limit};
ghost use Rattle.gateway_core.specs.Arriving.{Reads, StandsFor};

use crate::gateway::Gateway;
use crate::setting::Setting;
use feed_messages::FeedReader;
use gw_base::Moment;
use journey_model::Context;
use propagation::ReadingFold;
use service_day::Window;
use std::alloc::AllocError;
use std::marker::Model;

/// A feed that is posted at a moment, while it arrives (GTFS Realtime, FeedMessage): what is read of its bytes so far,
/// and what its entities say of journeys over the window of that moment. It holds the bytes of one field at most, and
/// no entity but those that name no service day, which wait for the feed's header.
#[derive(Drop)]
pub struct FeedTaking {
    pub(crate) moment: Moment,
    pub(crate) window: Window,
    pub(crate) reader: FeedReader,
    pub(crate) fold: ReadingFold,
}

impl Model for FeedTaking {
    ghost use Rattle.gateway_core.specs.Arriving.{Arriving};

    ghost Value = { Arriving };

    ghost view = { λ t. record { moment = t.moment; window = t.window; reader = t.reader; fold = t.fold } };
}

// Takes bytes from the front of a piece, up to the end of an entity at most, and answers how many.
fn take_front(
    context: &Context<'_>,
    reader: &mut FeedReader,
    fold: &mut ReadingFold,
    piece: &[u8],
) -> Result<usize, AllocError>
    requires some { 0 < length piece.now }
    requires room { reader.old.taken + length piece.now ≤ body_limit }
    ensures used { IfOk result (λ used. (1 ≤ used) × (used ≤ length piece.now)) }
    ensures counted { IfOk result (λ used. reader.new.taken ≡ reader.old.taken + used) }
    ensures takes { (bytes : List ℕ) → Reads context.now reader.old fold.old bytes
        → IfOk result (λ used. Reads context.now reader.new fold.new (bytes ++ take used piece.now)) }
{
    let (used, given) = reader.feed(piece)?;
    if let Some((index, entity)) = given {
        fold.add(context, index, entity)?;
    }
    Ok(used)
}

// Takes all of a piece.
fn take_all(
    context: &Context<'_>,
    reader: &mut FeedReader,
    fold: &mut ReadingFold,
    piece: &[u8],
) -> Result<(), AllocError>
    requires room { reader.old.taken + length piece.now ≤ body_limit }
    ensures counted { OnOk result (reader.new.taken ≡ reader.old.taken + length piece.now) }
    ensures takes { (bytes : List ℕ) → Reads context.now reader.old fold.old bytes
        → OnOk result (Reads context.now reader.new fold.new (bytes ++ piece.now)) }
{
    let mut done = 0;
    while done < piece.len() {
        let (_, rest) = piece.split_at(done);
        done += take_front(context, reader, fold, rest)?;
    }
    Ok(())
}

impl FeedTaking {
    /// Takes the next bytes of the feed, over the setting of the gateway at which it began to arrive. Err for want of
    /// memory.
    pub(crate) fn take_piece(&mut self, setting: &Setting, piece: &[u8]) -> Result<(), AllocError>
        requires room { self.old.reader.taken + length piece.now ≤ body_limit }
        ensures takes { (bytes : List ℕ) → StandsFor setting.now self.old bytes
            → OnOk result (StandsFor setting.now self.new (bytes ++ piece.now)) }
        ensures moment { self.new.moment ≡ self.old.moment }
        ensures window { self.new.window ≡ self.old.window }
        ensures counted { OnOk result (self.new.reader.taken ≡ self.old.reader.taken + length piece.now) }
    {
        let context = setting.context_over(&self.window);
        take_all(&context, &mut self.reader, &mut self.fold, piece)
    }

    /// Takes the next bytes of the feed, at the gateway at which it began to arrive. Err for want of memory, after
    /// which it may only be dropped.
    pub fn piece(&mut self, gate: &Gateway, piece: &[u8]) -> Result<(), AllocError>
        requires room { self.old.reader.taken + length piece.now ≤ body_limit }
        ensures takes { (bytes : List ℕ) → StandsFor gate.now.setting self.old bytes
            → OnOk result (StandsFor gate.now.setting self.new (bytes ++ piece.now)) }
        ensures moment { self.new.moment ≡ self.old.moment }
        ensures window { self.new.window ≡ self.old.window }
        ensures counted { OnOk result (self.new.reader.taken ≡ self.old.reader.taken + length piece.now) }
    {
        self.take_piece(&gate.setting, piece)
    }
}
