//! The work of `make`: what `to-gtfsrt` does, over files in memory, and what the feed says is counted. The functions
//! meet `specs/Samples.antt`.
ghost use Rattle.std.specs.Prelude.{◌≡◌, [], IfOk, IsErrOf, List};
ghost use Rattle.gw_base.specs.Answers.{UnlessFree};
ghost use Rattle.gw_base.specs.declared.messages.Entity as messages;
ghost use Rattle.feed_reading.specs.Faults.{HasFault};
ghost use Rattle.feed_reading.specs.declared.fault.FeedFault.{FeedFault};
ghost use Rattle.gateway_core.specs.Arrivals.{Arrival, moments_of, present, schedule_at};
ghost use Rattle.gateway_core.specs.Feeds.{IsFeedOf};
ghost use Rattle.gateway_core.specs.Gives.{GivesEach};
ghost use Rattle.gateway_core.specs.Recording.{IsRebuiltOf};
ghost use Rattle.gateway_core.specs.Standing.{Stands};
ghost use Rattle.sample_maker.specs.Deliveries.{deliveries as texts_of};
ghost use Rattle.sample_maker.specs.Making.{IsSample};
ghost use Rattle.file_commands.specs.Exits.{is_free};
ghost use Rattle.file_commands.specs.Made.{HasMadeDay, made_at};
ghost use Rattle.file_commands.specs.Samples as steps;
ghost use Rattle.file_commands.specs.Served.{Takes, TakesTexts};

use crate::deliveries::{JOURNEYS, file_taken};
use crate::done::Done;
use crate::exit::Exit;
use crate::feeds::feed_of;
use crate::made_folder::{MADE, from_memory, made_moment, made_setting};
use gateway_core::{Gateway, Setting};
use gw_base::{Bytes, Failed, List, MemoryFiles, MemorySink, Text};
use journey_model::Report;
use sample_counts::{SampleCounts, count_feed, counts_line};
use sample_maker::Maker;
use std::alloc::{AllocError, Global};

// Takes a delivery's text, as a file in memory.
fn take_text(alloc: Global, gate: &mut Gateway, text: Bytes) -> Result<Report, Exit>
    ensures told { (arrivals : List Arrival) → Stands gate.old arrivals → UnlessFree is_free result
        (Takes (steps.GivesText gate.old.setting text arrivals) made_at arrivals gate.new) }
    ensures setting { gate.new.setting ≡ gate.old.setting }
    ensures calm { ¬ IsErrOf result Exit.Failed }
{
    let mut files = List::new(alloc);
    files.push((Text::copied(alloc, MADE)?, text))?;
    let mut files = MemoryFiles::make(files, List::new(alloc));
    match file_taken(alloc, &mut files, gate, made_moment(), JOURNEYS, MADE) {
        Ok(report) => Ok(report),
        Err(end) => Err(from_memory(end)),
    }
}

// Takes all deliveries of a sample by a gateway that took nothing yet.
fn take_all(alloc: Global, maker: &mut Maker, gate: &mut Gateway) -> Result<(), Exit>
    requires first { maker.old.given ≡ 0 }
    requires new { Stands gate.old [] }
    ensures told { UnlessFree is_free result
        (TakesTexts (steps.ArrivesOf gate.old.setting
        (texts_of maker.old.seed maker.old.trips maker.old.stops) []) gate.new) }
    ensures setting { gate.new.setting ≡ gate.old.setting }
    ensures calm { ¬ IsErrOf result Exit.Failed }
{
    while let Some(text) = maker.next_delivery(alloc)? {
        match take_text(alloc, gate, text) {
            Ok(_report) => {}
            Err(end) => return Err(end),
        }
    }
    Ok(())
}

// The feed of what was taken, in a sink that has just the room for it. A feed that needed more room would be told as
// want of memory.
fn written(alloc: Global, gate: &Gateway) -> Result<MemorySink, AllocError>
    ensures rebuilt { (arrivals : List Arrival) → Stands gate.now arrivals
        → IfOk result (λ sink. IsRebuiltOf gate.now.setting made_at arrivals sink.written) }
    ensures gives { (arrivals : List Arrival) → Stands gate.now arrivals
        → IfOk result (λ sink. GivesEach made_at (schedule_at gate.now.setting (moments_of arrivals))
        (present gate.now.setting arrivals) sink.written) }
{
    let at = made_moment();
    let mut sink = MemorySink::make(alloc, gate.feed_len(at), List::new(alloc))?;
    match gate.write_feed(at, &mut sink) {
        Ok(()) => Ok(sink),
        Err(Failed) => Err(AllocError),
    }
}

// The counts of the feed's bytes, which have no fault.
fn counts_in(alloc: Global, gate: &Gateway, bytes: &[u8]) -> Result<SampleCounts, Exit>
    requires stands { (arrivals : List Arrival) × Stands gate.now arrivals }
    requires day { HasMadeDay gate.now.setting }
    requires feed { (entities : List messages.Entity) × IsFeedOf made_at entities bytes.now }
    requires faultless { (fault : FeedFault) → ¬ HasFault bytes.now fault }
    ensures told { (arrivals : List Arrival) → Stands gate.now arrivals
        → UnlessFree is_free result (steps.IsCountsOf gate.now.setting arrivals bytes.now) }
    ensures calm { ¬ IsErrOf result Exit.Failed }
{
    let feed = match feed_of(alloc, MADE, bytes) {
        Ok(feed) => feed,
        Err(end) => return Err(end),
    };
    Ok(count_feed(alloc, &gate.context(), &feed, bytes)?)
}

// The counts of what was taken.
fn counted(alloc: Global, gate: &Gateway) -> Result<SampleCounts, Exit>
    requires stands { (arrivals : List Arrival) × Stands gate.now arrivals }
    requires day { HasMadeDay gate.now.setting }
    ensures told { (arrivals : List Arrival) → Stands gate.now arrivals
        → UnlessFree is_free result (steps.IsCounted gate.now.setting arrivals) }
    ensures calm { ¬ IsErrOf result Exit.Failed }
{
    let sink = written(alloc, gate)?;
    counts_in(alloc, gate, sink.written())
}

// The counts of a sample's deliveries over a setting.
fn deliveries_counted(
    alloc: Global,
    maker: &mut Maker,
    setting: Setting,
) -> Result<SampleCounts, Exit>
    requires first { maker.old.given ≡ 0 }
    requires day { HasMadeDay setting }
    ensures told { UnlessFree is_free result
        (steps.IsCountOfDeliveries maker.old.seed maker.old.trips maker.old.stops setting) }
    ensures calm { ¬ IsErrOf result Exit.Failed }
{
    let mut gate = Gateway::start(alloc, setting)?;
    match take_all(alloc, maker, &mut gate) {
        Ok(()) => counted(alloc, &gate),
        Err(end) => Err(end),
    }
}

/// The counts of the sample of a seed, so many trips, and so many stops of each: its folder is read from memory (GTFS
/// Schedule), its deliveries are taken in order at the start of 2024-05-01 (SIRI 2.0, EstimatedTimetableDelivery), and
/// the feed that is made of them then (GTFS Realtime, FeedMessage) is read again and counted. Each fault comes exactly
/// where a made text has it, and the feed has none; want of memory may come in place of any answer.
pub fn run_sample(alloc: Global, seed: u32, trips: u32, stops: u32) -> Result<SampleCounts, Exit>
    requires { IsSample seed trips stops }
    ensures sample { UnlessFree is_free result (steps.IsCountOfSample seed trips stops) }
    ensures calm { ¬ IsErrOf result Exit.Failed }
{
    let mut maker = Maker::make(seed, trips, stops);
    match made_setting(alloc, &maker) {
        Ok(setting) => deliveries_counted(alloc, &mut maker, setting),
        Err(end) => Err(end),
    }
}

/// The line of the counts of a sample of that seed, so many trips, and so many stops of each.
pub fn made_line(alloc: Global, seed: u32, trips: u32, stops: u32) -> Result<Done, Exit>
    requires { IsSample seed trips stops }
    ensures told { UnlessFree is_free result
        (steps.IsMakeWork (record { seed = seed; trips = trips; stops = stops })) }
    ensures calm { ¬ IsErrOf result Exit.Failed }
{
    match run_sample(alloc, seed, trips, stops) {
        Ok(counts) => {
            let line = counts_line(alloc, trips, stops, &counts)?;
            Ok(Done::texts(line, Bytes::new(alloc)))
        }
        Err(end) => Err(end),
    }
}
