//! The board of what a gateway serves. The definitions are those of `specs/Shown.antt`.
ghost use Rattle.std.specs.Prelude.{◌≡◌, ◌<◌, ◌++◌, List as Values, All, IfOk, OnOk, length};
ghost use Rattle.std.specs.List.{flat_map};
ghost use Rattle.feed_reading.specs.Tables.{MeansFeed};
ghost use Rattle.gw_base.specs.declared.messages.Feed as feeds;
ghost use Rattle.gateway_core.specs.Arrivals.{Arrival, moments_of, present, schedule_at};
ghost use Rattle.gateway_core.specs.Gives.{SaysLatest};
ghost use Rattle.gateway_core.specs.Standing.{Stands};
ghost use Rattle.propagation.specs.Feeds.{IsServable};
ghost use Rattle.stop_board.specs.Boards.{IsOver};
ghost use Rattle.stop_board.specs.Visits.{visits_of};
ghost use Rattle.board_command.specs.Shown.{ShowsBoard};

use feed_messages::read_feed;
use gateway_core::Gateway;
use gw_base::{Bytes, Failed, Feed, List, MemorySink, Moment};
use journey_model::{Context, DatedReading};
use propagation::readings_of;
use std::alloc::{AllocError, Global};
use stop_board::Board;
use timetable::StopNo;

// The feed that bytes mean; where they mean none there is nothing to show of it, which is told as want of memory.
fn meant(alloc: Global, bytes: &[u8]) -> Result<Feed, AllocError>
    ensures only { (other : feeds.Feed) → MeansFeed bytes.now other → IfOk result (λ feed. feed ≡ other) }
{
    match read_feed(alloc, bytes) {
        Ok(feed) => Ok(feed),
        Err(_fault) => Err(AllocError),
    }
}

// The feed that a gateway serves at a moment, read again: it says just the latest records.
fn served_feed(alloc: Global, gate: &Gateway, at: Moment) -> Result<Feed, AllocError>
    ensures { (arrivals : Values Arrival) → Stands gate.now arrivals
        → IfOk result (SaysLatest (schedule_at gate.now.setting (moments_of arrivals))
        (present gate.now.setting arrivals)) }
{
    let mut sink = MemorySink::make(alloc, gate.feed_len(at), List::new(alloc))?;
    match gate.write_feed(at, &mut sink) {
        Ok(()) => meant(alloc, sink.written()),
        Err(Failed) => Err(AllocError),
    }
}

// Adds journeys to a board.
fn add_all(
    board: &mut Board,
    context: &Context<'_>,
    journeys: &[DatedReading],
) -> Result<(), AllocError>
    requires servable { All (IsServable context.now) journeys.now }
    ensures asked { board.new.asked ≡ board.old.asked }
    ensures visits { OnOk result (board.new.visits
        ≡ board.old.visits ++ flat_map (visits_of board.old.asked) journeys.now) }
    ensures over { IsOver context.now board.old → IsOver context.now board.new }
{
    for journey in journeys {
        board.add(context, journey)?;
    }
    Ok(())
}

/// What a display at a stop shows of what a gateway took (SIRI 2.0, StopMonitoringDelivery): the first so many visits,
/// from that moment on for so many minutes, of the latest record of each journey. They are read from the feed that the
/// gateway serves at that moment. The stop is one of the gateway's timetable. Err for want of memory.
pub fn board_of(
    alloc: Global,
    gate: &Gateway,
    at: Moment,
    stop: StopNo,
    minutes: u32,
    most: u32,
) -> Result<Bytes, AllocError>
    requires stop { stop.0 < length gate.now.setting.table.stops }
    requires stands { (arrivals : Values Arrival) × Stands gate.now arrivals }
    ensures shows { (arrivals : Values Arrival) → Stands gate.now arrivals
        → IfOk result (ShowsBoard gate.now.setting at arrivals stop minutes most) }
{
    let feed = served_feed(alloc, gate, at)?;
    let context = gate.context();
    let reading = readings_of(alloc, &feed, &context)?;
    let mut board = Board::make(alloc, stop, at, minutes);
    add_all(&mut board, &context, reading.journeys.as_slice())?;
    board.text(&context, at, most)
}
