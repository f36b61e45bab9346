//! The messages of an alert, each by its table of `specs/Tables.antt`.
ghost use Rattle.std.specs.Prelude.{ℕ, List, IfOk};
ghost use Rattle.wire_fields.specs.Grammar.{WireField};
ghost use Rattle.feed_reading.specs.Tables.{OfTimeRange, OfEntitySelector, OfTranslation, OfTranslatedString, AreTranslations, OfAlert};
ghost use Rattle.feed_reading.specs.Partly.{IsFound};
ghost use Rattle.feed_reading.specs.Parts.{AfterPeriod, AfterSelector, AfterTranslation, AfterString, AfterAlert};

use crate::plain::kinds::copied;
use crate::plain_fault::PlainFault;
use crate::quick::fields::{as_enum, number_after, required_text, text_after};
use crate::quick::found::{Found, add_body};
use crate::quick::nested::{Parts, QuickMessage, add_message, read_found, read_parts};
use crate::quick::room::with_room;
use gw_base::{Alert, List, Period, Selector, Translation};
use std::alloc::{AllocError, Global};
use wire_fields::Field;

#[derive(Drop)]
pub struct PeriodParts {
    start: Option<u64>,
    end: Option<u64>,
}

impl<'a> Parts<'a> for PeriodParts {
    type Whole = Period;

    ghost after = { AfterPeriod };

    ghost table = { OfTimeRange };

    #[inline(always)]
    fn start(_alloc: Global, _bytes: &[u8]) -> Result<PeriodParts, AllocError> {
        Ok(PeriodParts {
            start: None,
            end: None,
        })
    }

    #[inline(always)]
    fn take(&mut self, _alloc: Global, field: &Field<'a>) -> Result<(), PlainFault> {
        self.start = number_after(1, field, self.start);
        self.end = number_after(2, field, self.end);
        Ok(())
    }

    #[inline(always)]
    fn finish(self, _alloc: Global) -> Result<Period, PlainFault> {
        Ok(Period {
            start: self.start,
            end: self.end,
        })
    }
}

impl QuickMessage for Period {
    ghost table = { OfTimeRange };

    fn read(alloc: Global, bytes: &[u8]) -> Result<Period, PlainFault> {
        read_parts::<PeriodParts>(alloc, bytes)
    }
}

#[derive(Drop)]
pub struct SelectorParts<'a> {
    agency_id: Option<&'a str>,
    route_id: Option<&'a str>,
    trip: Found<'a>,
    stop_id: Option<&'a str>,
}

impl<'a> Parts<'a> for SelectorParts<'a> {
    type Whole = Selector;

    ghost after = { AfterSelector };

    ghost table = { OfEntitySelector };

    #[inline(always)]
    fn start(_alloc: Global, _bytes: &[u8]) -> Result<SelectorParts<'a>, AllocError> {
        Ok(SelectorParts {
            agency_id: None,
            route_id: None,
            trip: Found::Nothing,
            stop_id: None,
        })
    }

    #[inline(always)]
    fn take(&mut self, alloc: Global, field: &Field<'a>) -> Result<(), PlainFault> {
        if field.number == 4 {
            add_body(alloc, 4, field, &mut self.trip)?;
            return Ok(());
        }
        if field.number == 5 {
            self.stop_id = text_after(5, field, self.stop_id)?;
            return Ok(());
        }
        self.agency_id = text_after(1, field, self.agency_id)?;
        self.route_id = text_after(2, field, self.route_id)?;
        Ok(())
    }

    #[inline(always)]
    fn finish(self, alloc: Global) -> Result<Selector, PlainFault> {
        Ok(Selector {
            agency_id: copied(alloc, self.agency_id)?,
            route_id: copied(alloc, self.route_id)?,
            trip: read_found(alloc, &self.trip)?,
            stop_id: copied(alloc, self.stop_id)?,
        })
    }
}

impl QuickMessage for Selector {
    ghost table = { OfEntitySelector };

    fn read(alloc: Global, bytes: &[u8]) -> Result<Selector, PlainFault> {
        read_parts::<SelectorParts<'_>>(alloc, bytes)
    }
}

#[derive(Drop)]
pub struct TranslationParts<'a> {
    text: Option<&'a str>,
    language: Option<&'a str>,
}

impl<'a> Parts<'a> for TranslationParts<'a> {
    type Whole = Translation;

    ghost after = { AfterTranslation };

    ghost table = { OfTranslation };

    #[inline(always)]
    fn start(_alloc: Global, _bytes: &[u8]) -> Result<TranslationParts<'a>, AllocError> {
        Ok(TranslationParts {
            text: None,
            language: None,
        })
    }

    #[inline(always)]
    fn take(&mut self, _alloc: Global, field: &Field<'a>) -> Result<(), PlainFault> {
        self.text = text_after(1, field, self.text)?;
        self.language = text_after(2, field, self.language)?;
        Ok(())
    }

    #[inline(always)]
    fn finish(self, alloc: Global) -> Result<Translation, PlainFault> {
        Ok(Translation {
            text: required_text(alloc, self.text)?,
            language: copied(alloc, self.language)?,
        })
    }
}

impl QuickMessage for Translation {
    ghost table = { OfTranslation };

    fn read(alloc: Global, bytes: &[u8]) -> Result<Translation, PlainFault> {
        read_parts::<TranslationParts<'_>>(alloc, bytes)
    }
}

#[derive(Drop)]
pub struct StringParts {
    translations: List<Translation>,
}

impl<'a> Parts<'a> for StringParts {
    type Whole = List<Translation>;

    ghost after = { AfterString };

    ghost table = { OfTranslatedString };

    #[inline(always)]
    fn start(alloc: Global, bytes: &[u8]) -> Result<StringParts, AllocError> {
        Ok(StringParts {
            translations: with_room(alloc, bytes, 1)?,
        })
    }

    #[inline(always)]
    fn take(&mut self, alloc: Global, field: &Field<'a>) -> Result<(), PlainFault> {
        add_message(alloc, 1, field, &mut self.translations)?;
        Ok(())
    }

    #[inline(always)]
    fn finish(self, _alloc: Global) -> Result<List<Translation>, PlainFault> {
        Ok(self.translations)
    }
}

impl QuickMessage for List<Translation> {
    ghost table = { OfTranslatedString };

    fn read(alloc: Global, bytes: &[u8]) -> Result<List<Translation>, PlainFault> {
        read_parts::<StringParts>(alloc, bytes)
    }
}

// The translations of a text, and none where it is missing.
fn translations(alloc: Global, found: &Found<'_>) -> Result<List<Translation>, PlainFault>
    ensures { IfOk result
        (λ list. (number : ℕ) (fields : List WireField) → IsFound number fields found.now
        → AreTranslations number fields list) }
{
    match read_found(alloc, found)? {
        Some(translations) => Ok(translations),
        None => Ok(List::new(alloc)),
    }
}

#[derive(Drop)]
pub struct AlertParts<'a> {
    periods: List<Period>,
    selectors: List<Selector>,
    cause: Option<u64>,
    effect: Option<u64>,
    header: Found<'a>,
    description: Found<'a>,
}

impl<'a> Parts<'a> for AlertParts<'a> {
    type Whole = Alert;

    ghost after = { AfterAlert };

    ghost table = { OfAlert };

    #[inline(always)]
    fn start(alloc: Global, bytes: &[u8]) -> Result<AlertParts<'a>, AllocError> {
        Ok(AlertParts {
            periods: with_room(alloc, bytes, 1)?,
            selectors: with_room(alloc, bytes, 5)?,
            cause: None,
            effect: None,
            header: Found::Nothing,
            description: Found::Nothing,
        })
    }

    #[inline(always)]
    fn take(&mut self, alloc: Global, field: &Field<'a>) -> Result<(), PlainFault> {
        if field.number == 1 {
            add_message(alloc, 1, field, &mut self.periods)?;
            return Ok(());
        }
        if field.number == 5 {
            add_message(alloc, 5, field, &mut self.selectors)?;
            return Ok(());
        }
        if field.number == 10 {
            add_body(alloc, 10, field, &mut self.header)?;
            return Ok(());
        }
        if field.number == 11 {
            add_body(alloc, 11, field, &mut self.description)?;
            return Ok(());
        }
        self.cause = number_after(6, field, self.cause);
        self.effect = number_after(7, field, self.effect);
        Ok(())
    }

    #[inline(always)]
    fn finish(self, alloc: Global) -> Result<Alert, PlainFault> {
        Ok(Alert {
            periods: self.periods,
            selectors: self.selectors,
            cause: as_enum(self.cause, 1),
            effect: as_enum(self.effect, 8),
            header: translations(alloc, &self.header)?,
            description: translations(alloc, &self.description)?,
        })
    }
}

impl QuickMessage for Alert {
    ghost table = { OfAlert };

    fn read(alloc: Global, bytes: &[u8]) -> Result<Alert, PlainFault> {
        read_parts::<AlertParts<'_>>(alloc, bytes)
    }
}
