//! The texts of a feed's alerts are UTF-8, so a delivery can say them. Laws, which change nothing when they run.
ghost use Rattle.std.specs.Prelude.{All, IfSome, IsUtf8};
ghost use Rattle.std.specs.Option.{option_copied};
ghost use Rattle.timetable.specs.Seen.{seen};
ghost use Rattle.reverse_alerts.specs.Sayable.{HasUtf8};
ghost use Rattle.reverse_alerts.specs.Taken.{situations};
ghost use Rattle.reverse_alerts.specs.Texts.{HasTexts, SaysTexts};

use crate::senses::first_text;
use gw_base::{Alert, Entity};
use timetable::Timetable;

// A text is UTF-8.
fn utf8_law(text: &str)
    ensures { IsUtf8 text.now }
{}

// So is one that may be missing.
fn optional_utf8_law(text: Option<&str>)
    ensures { IfSome (option_copied text.entry) IsUtf8 }
{
    if let Some(text) = text {
        utf8_law(text);
    }
}

// The texts that are told of an alert are UTF-8.
fn texts_law(alert: &Alert)
    ensures { SaysTexts alert.now }
{
    optional_utf8_law(first_text(alert.header.as_slice()));
    optional_utf8_law(first_text(alert.description.as_slice()));
}

// The id of an entity and the texts of its alert are UTF-8.
fn entity_texts_law(entity: &Entity)
    ensures { HasTexts entity.now }
{
    utf8_law(entity.id.as_str());
    if let Some(alert) = &entity.alert {
        texts_law(alert.get());
    }
}

/// The texts of all situations that are taken are UTF-8.
pub(crate) fn all_utf8_law(table: &Timetable, entities: &[Entity])
    ensures { All HasUtf8 (situations (seen table.now) entities.now) }
{
    for entity in entities {
        entity_texts_law(entity);
    }
}
