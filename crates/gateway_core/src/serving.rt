//! What a gateway serves. The functions meet `specs/Standing.antt`.
ghost use Rattle.std.specs.Prelude.{◌≡◌, ◌++◌, true, List, OnOk, IsErr, length, min, if◌then◌else◌};
ghost use Rattle.gw_base.specs.Count.{Counts, Rose, last_count};
ghost use Rattle.gw_base.specs.Told.{PutsUnless, with_bytes};
ghost use Rattle.feed_index.specs.Chosen.{chosen};
ghost use Rattle.feed_writing.specs.Written.{header};
ghost use Rattle.gateway_core.specs.Arrivals.{Arrival, moments_of, present, schedule_at};
ghost use Rattle.gateway_core.specs.Gives.{GivesEach};
ghost use Rattle.gateway_core.specs.Recording.{IsRebuiltOf};
ghost use Rattle.gateway_core.specs.Standing.{Stands, served};

use crate::gateway::Gateway;
use crate::keys::{Edition, JourneyKey};
use feed_index::{Choice, FeedIndex};
use feed_messages::header_bytes;
use gw_base::{Failed, Moment, Sink, Text, put_all};
use service_day::Instant;

// Every journey that is kept is served.
struct Each;

impl Choice<Instant> for Each {
    ghost use Rattle.std.specs.Prelude.{true};

    ghost test = { λ _ _. true };

    fn passes(&self, _value: &Instant) -> bool {
        true
    }
}

// Of the situations those are served whose entry says so.
struct Served;

impl Choice<Edition> for Served {
    ghost test = { λ _ value. value.served };

    fn passes(&self, one: &Edition) -> bool {
        one.served
    }
}

// Writes the header, and after it the entities of journeys and the alerts that are served.
fn write_entities<S: Sink>(
    header: &[u8],
    journeys: &FeedIndex<JourneyKey, Instant>,
    situations: &FeedIndex<Text, Edition>,
    sink: &mut S,
) -> Result<(), Failed>
    ensures all { OnOk result (S.told sink.new ≡ with_bytes (S.told sink.old)
        (header.now ++ chosen (λ _. true) journeys.now.entries
        ++ chosen (λ value. value.served) situations.now.entries)) }
    ensures front { PutsUnless (Rose (S.faults sink.old) (S.faults sink.new))
        (S.told sink.old) (S.told sink.new)
        (header.now ++ chosen (λ _. true) journeys.now.entries
        ++ chosen (λ value. value.served) situations.now.entries) }
    ensures counts { Counts (IsErr result) (S.faults sink.old) (S.faults sink.new) }
    ensures others { S.beside sink.new ≡ S.beside sink.old }
{
    match put_all(sink, header) {
        Ok(()) => {}
        Err(end) => return Err(end),
    }
    match journeys.write(&Each, sink) {
        Ok(()) => {}
        Err(end) => return Err(end),
    }
    match situations.write(&Served, sink) {
        Ok(()) => Ok(()),
        Err(end) => Err(end),
    }
}

// How many bytes an alert has in the feed.
fn alert_len(edition: &Edition, bytes: &[u8]) -> u64
    ensures { result ≡ (if edition.now.served then length bytes.now else 0) }
{
    if edition.served {
        bytes.len() as u64
    } else {
        0
    }
}

// How many bytes the alerts have that are served, or the last number of 64 bits where they have more.
fn served_len(situations: &FeedIndex<Text, Edition>) -> u64
    ensures { result ≡ min (length (chosen (λ value. value.served) situations.now.entries)) last_count }
{
    let mut len = 0u64;
    for i in 0..situations.len() {
        let (_, edition, bytes) = situations.at(i);
        len = len.saturating_add(alert_len(edition, bytes));
    }
    len
}

impl Gateway {
    /// How many bytes the feed has that is made at that moment.
    pub fn feed_len(&self, moment: Moment) -> u64
        ensures value { (arrivals : List Arrival) → Stands self.now arrivals
            → result ≡ length (served moment self.now) }
    {
        let header = header_bytes(moment);
        let journeys = self.state.journeys.total_bytes();
        let len = header.as_slice().len() as u64;
        len.saturating_add(journeys)
            .saturating_add(served_len(&self.state.situations))
    }

    /// Writes the feed that is made at that moment (GTFS Realtime, FeedMessage): the header, the entity of the latest
    /// record of each journey by service day and trip number, and the alert of each served situation by number. After a
    /// failure a prefix of it is written. Takes no memory.
    pub fn write_feed<S: Sink>(&self, moment: Moment, sink: &mut S) -> Result<(), Failed>
        ensures all { OnOk result (S.told sink.new ≡ with_bytes (S.told sink.old) (served moment self.now)) }
        ensures front { PutsUnless (Rose (S.faults sink.old) (S.faults sink.new))
            (S.told sink.old) (S.told sink.new) (served moment self.now) }
        ensures counts { Counts (IsErr result) (S.faults sink.old) (S.faults sink.new) }
        ensures others { S.beside sink.new ≡ S.beside sink.old }
        ensures rebuilt { (arrivals : List Arrival) → Stands self.now arrivals
            → IsRebuiltOf self.now.setting moment arrivals (served moment self.now) }
        ensures gives { (arrivals : List Arrival) → Stands self.now arrivals
            → GivesEach moment (schedule_at self.now.setting (moments_of arrivals))
            (present self.now.setting arrivals) (served moment self.now) }
    {
        self.setting.table.soundness_law();
        let header = header_bytes(moment);
        write_entities(
            header.as_slice(),
            &self.state.journeys,
            &self.state.situations,
            sink,
        )
    }

    /// How many bytes the SIRI text has.
    pub fn siri_len(&self) -> u64
        ensures value { result ≡ length self.now.text }
    {
        self.state.text.len() as u64
    }

    /// Writes the SIRI text of the last feed (SIRI 2.0, EstimatedTimetableDelivery). After a failure a prefix of it is
    /// written. Takes no memory.
    pub fn write_siri<S: Sink>(&self, sink: &mut S) -> Result<(), Failed>
        ensures all { OnOk result (S.told sink.new ≡ with_bytes (S.told sink.old) self.now.text) }
        ensures front { PutsUnless (Rose (S.faults sink.old) (S.faults sink.new))
            (S.told sink.old) (S.told sink.new) self.now.text }
        ensures counts { Counts (IsErr result) (S.faults sink.old) (S.faults sink.new) }
        ensures others { S.beside sink.new ≡ S.beside sink.old }
    {
        put_all(sink, self.state.text.as_slice())
    }
}
