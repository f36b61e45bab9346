//! What the commands make of a feed's file. The functions meet `specs/Work.antt`.
ghost use Rattle.std.specs.Prelude.{◌≡◌, false, Ok, IfOk, IfSome, IsErrOf};
ghost use Rattle.gw_base.specs.Answers.{UnlessFree};
ghost use Rattle.gw_base.specs.Count.{Counts};
ghost use Rattle.gw_base.specs.declared.messages.Feed as feeds;
ghost use Rattle.feed_reading.specs.Tables.{MeansFeed};
ghost use Rattle.gateway_core.specs.Deliveries.{schedule_in};
ghost use Rattle.journey_model.specs.FeedReadings.{is_differential};
ghost use Rattle.propagation.specs.Feeds.{IsReading};
ghost use Rattle.file_commands.specs.Exits.{is_free};
ghost use Rattle.file_commands.specs.Work as steps;

use crate::bodies::{fault_end, feed_end};
use crate::done::Done;
use crate::exit::Exit;
use crate::reading::further_file;
use feed_messages::read_feed;
use gateway_core::{Setting, feed_report};
use gw_base::incrementality::DIFFERENTIAL;
use gw_base::{BODY_LIMIT, Bytes, Feed, Files, Moment};
use http_talk::BodyFault;
use propagation::{FeedReading, readings_of};
use reverse_alerts::SxFault;
use reverse_calls::{ReadingsFault, siri_of_readings};
use show_command::show_lines;
use std::alloc::{AllocError, Global};

/// The feed that a body means.
pub fn feed_of(alloc: Global, name: &str, body: &[u8]) -> Result<Feed, Exit>
    ensures told { UnlessFree is_free result (steps.IsFeedIn name.now body.now) }
    ensures only { (other : feeds.Feed) → MeansFeed body.now other → IfOk result (λ feed. feed ≡ other) }
    ensures calm { ¬ IsErrOf result Exit.Failed }
{
    match read_feed(alloc, body) {
        Ok(feed) => Ok(feed),
        Err(fault) => Err(feed_end(alloc, name, fault)?),
    }
}

// The feed, which is a full dataset.
fn full(alloc: Global, name: &str, feed: Feed) -> Result<Feed, Exit>
    ensures told { UnlessFree is_free result (steps.IsFullDataset name.now feed) }
    ensures full { IfOk result (λ feed. is_differential feed ≡ false) }
    ensures calm { ¬ IsErrOf result Exit.Failed }
{
    if feed.incrementality == DIFFERENTIAL {
        return Err(fault_end(alloc, name, &BodyFault::Differential)?);
    }
    Ok(feed)
}

// The feed of a body, which is a full dataset.
fn body_feed(alloc: Global, name: &str, body: &[u8]) -> Result<Feed, Exit>
    ensures told { UnlessFree is_free result (steps.IsBodyFeed name.now body.now) }
    ensures full { IfOk result (λ feed. is_differential feed ≡ false) }
    ensures calm { ¬ IsErrOf result Exit.Failed }
{
    let feed = feed_of(alloc, name, body)?;
    full(alloc, name, feed)
}

/// The feed of a file, which is a full dataset.
pub fn feed_file<F: Files>(alloc: Global, files: &mut F, name: &str) -> Result<Feed, Exit>
    ensures told { IfSome (F.told files.old) (λ told. UnlessFree is_free result (steps.IsFileFeed name.now told)) }
    ensures full { IfOk result (λ feed. is_differential feed ≡ false) }
    ensures counts { Counts (IsErrOf result Exit.Failed) (F.faults files.old) (F.faults files.new) }
    ensures same { F.told files.new ≡ F.told files.old }
{
    let body = further_file(alloc, files, name, BODY_LIMIT)?;
    body_feed(alloc, name, body.as_slice())
}

// What a feed says of journeys. The feed is let go, so that its memory is there for the text.
fn readings_in(alloc: Global, setting: &Setting, feed: Feed) -> Result<FeedReading, AllocError>
    ensures { IfOk result (IsReading (schedule_in setting.now) feed) }
{
    readings_of(alloc, &feed, &setting.context())
}

/// The delivery that says what a feed says, and the report on its entities.
pub fn siri_of(
    alloc: Global,
    at: Moment,
    setting: &Setting,
    name: &str,
    feed: Feed,
) -> Result<Done, Exit>
    ensures told { UnlessFree is_free result (steps.IsSiriOf at setting.now name.now feed) }
    ensures calm { ¬ IsErrOf result Exit.Failed }
{
    let reading = readings_in(alloc, setting, feed)?;
    match siri_of_readings(alloc, &setting.context(), &reading, at) {
        Ok(out) => {
            let err = feed_report(alloc, name, &reading.report)?;
            Ok(Done::texts(out, err))
        }
        Err(ReadingsFault::TooManyCalls(count)) => {
            Err(fault_end(alloc, name, &BodyFault::TooManyCalls(count))?)
        }
        Err(ReadingsFault::Memory) => Err(Exit::Memory),
    }
}

/// The delivery of the situations that a feed's alerts are, and the report on its entities.
pub fn sx_of(
    alloc: Global,
    at: Moment,
    setting: &Setting,
    name: &str,
    feed: &Feed,
) -> Result<Done, Exit>
    requires { is_differential feed.now ≡ false }
    ensures told { UnlessFree is_free result (steps.IsSxOf at setting.now name.now feed.now) }
    ensures calm { ¬ IsErrOf result Exit.Failed }
{
    match reverse_alerts::sx_of(alloc, feed, &setting.context(), at) {
        Ok((out, report)) => {
            let err = feed_report(alloc, name, &report)?;
            Ok(Done::texts(out, err))
        }
        Err(SxFault::Differential) => unreachable!(),
        Err(SxFault::Memory) => Err(Exit::Memory),
    }
}

/// The lines of what a feed says.
pub fn lines_of(alloc: Global, setting: &Setting, feed: Feed) -> Result<Done, AllocError>
    ensures { IfOk result (λ done. steps.IsLinesOf setting.now feed (Ok done)) }
{
    let reading = readings_in(alloc, setting, feed)?;
    let out = show_lines(alloc, &setting.context(), &reading)?;
    Ok(Done::texts(out, Bytes::new(alloc)))
}
