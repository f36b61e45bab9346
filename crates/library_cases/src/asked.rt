//! Questions, each answered by the library that it is asked of.
use crate::given::Given;
use crate::kinds::{DayKind, DeliveryKind, FolderKind, Kind, StopKind, ZoneKind};
use crate::of_days::{add_day, add_later, add_seconds, add_utc};
use crate::of_deliveries::add_delivery;
use crate::of_folders::{add_folder, add_found, add_runs};
use crate::of_json::add_number;
use crate::of_situations::add_situations;
use crate::of_stops::{add_call, add_update};
use crate::of_zones::{add_date, add_file, add_fronts, add_moment, add_rule, add_start};
use crate::pieces::Trouble;
use crate::written::add_written;
use journey_model::Context;
use std::alloc::Global;

/// A question: what it is asked of, with the word behind that, and its bytes with what stands round them.
#[derive(Clone, Copy)]
pub struct Question<'a> {
    pub kind: Kind,
    pub of: &'a str,
    pub bytes: &'a [u8],
}

/// Adds the lines of the answer.
pub fn add_answer(
    alloc: Global,
    given: &Given,
    question: Question<'_>,
    into: &mut String,
) -> Result<(), Trouble> {
    match question.kind {
        Kind::Json => add_number(alloc, question.bytes, into),
        Kind::Delivery(kind) => over_context(alloc, given, kind, question, into),
        Kind::Folder(kind) => of_folder(alloc, given, kind, question.bytes, into),
        Kind::Stop(kind) => of_stop(alloc, given, kind, text_of(question.bytes)?, into),
        Kind::Day(kind) => of_day(alloc, kind, text_of(question.bytes)?, into),
        Kind::Zone(kind) => of_zone(alloc, given, kind, question.bytes, into),
    }
}

// A question's text.
fn text_of(bytes: &[u8]) -> Result<&str, Trouble> {
    match str::from_utf8(bytes) {
        Ok(text) => Ok(text),
        Err(_) => Err(Trouble::Form),
    }
}

// Reads the folder, the zone and the window, and asks over them.
fn over_context(
    alloc: Global,
    given: &Given,
    kind: DeliveryKind,
    question: Question<'_>,
    into: &mut String,
) -> Result<(), Trouble> {
    let table = given.table(alloc)?;
    let zone = given.zone(alloc)?;
    let window = given.window(&zone)?;
    let context = Context {
        table: &table,
        zone: &zone,
        window: &window,
    };
    of_delivery(alloc, &context, kind, question, into)
}

fn of_delivery(
    alloc: Global,
    context: &Context<'_>,
    kind: DeliveryKind,
    question: Question<'_>,
    into: &mut String,
) -> Result<(), Trouble> {
    match kind {
        DeliveryKind::Journeys => add_delivery(alloc, context, question.bytes, into),
        DeliveryKind::Situations => add_situations(alloc, context, question.bytes, into),
        DeliveryKind::Written => add_written(alloc, context, question.of, question.bytes, into),
    }
}

fn of_folder(
    alloc: Global,
    given: &Given,
    kind: FolderKind,
    bytes: &[u8],
    into: &mut String,
) -> Result<(), Trouble> {
    match kind {
        FolderKind::Read => add_folder(alloc, given, into),
        FolderKind::Find => add_found(&given.table(alloc)?, text_of(bytes)?, into),
        FolderKind::Runs => add_runs(&given.table(alloc)?, text_of(bytes)?, into),
    }
}

fn of_stop(
    alloc: Global,
    given: &Given,
    kind: StopKind,
    text: &str,
    into: &mut String,
) -> Result<(), Trouble> {
    let table = given.table(alloc)?;
    let window = given.window(&given.zone(alloc)?)?;
    match kind {
        StopKind::Call => add_call(alloc, &table, &window, text, into),
        StopKind::Update => add_update(alloc, &table, &window, text, into),
    }
}

fn of_day(alloc: Global, kind: DayKind, text: &str, into: &mut String) -> Result<(), Trouble> {
    match kind {
        DayKind::Day => add_day(alloc, text, into),
        DayKind::Later => add_later(text, into),
        DayKind::Seconds => add_seconds(text, into),
        DayKind::Utc => add_utc(alloc, text, into),
    }
}

fn of_zone(
    alloc: Global,
    given: &Given,
    kind: ZoneKind,
    bytes: &[u8],
    into: &mut String,
) -> Result<(), Trouble> {
    match kind {
        ZoneKind::Moment => add_moment(alloc, &given.zone(alloc)?, text_of(bytes)?, into),
        ZoneKind::Start => add_start(alloc, given, text_of(bytes)?, into),
        ZoneKind::Date => add_date(&given.zone(alloc)?, text_of(bytes)?, into),
        ZoneKind::Rule => add_rule(text_of(bytes)?, into),
        ZoneKind::File => add_file(alloc, bytes, into),
        ZoneKind::Fronts => add_fronts(alloc, bytes, into),
    }
}
