//! What the readings of a feed keep, so that a delivery can say them. The functions meet `Sayable.antt` of
//! `siri_calls`.
ghost use Rattle.std.specs.Prelude.{All, IfSome};
ghost use Rattle.propagation.specs.Feeds.{IsServable};
ghost use Rattle.gw_base.specs.Moments.{IsMoment};
ghost use Rattle.siri_calls.specs.Written.Sayable.{IsSayable};

use gw_base::Moment;
use journey_model::{Context, DatedReading};

// When a reading was recorded is a moment.
fn recorded_law(recorded: &Option<Moment>)
    ensures { IfSome recorded.now IsMoment }
{
    if let Some(moment) = recorded {
        let _ = moment.secs();
    }
}

// A reading that can be served can be said.
fn sayable_law(context: &Context<'_>, one: &DatedReading)
    ensures { IsServable context.now one.now → IsSayable context.now one.now }
{
    let _ = one.day.number();
    let _ = context.window.start_of(one.day);
    recorded_law(&one.recorded);
}

/// Readings that can be served can be said. A law, which changes nothing when it runs.
pub(crate) fn all_sayable_law(context: &Context<'_>, journeys: &[DatedReading])
    ensures { All (IsServable context.now) journeys.now → All (IsSayable context.now) journeys.now }
{
    for one in journeys {
        sayable_law(context, one);
    }
}
