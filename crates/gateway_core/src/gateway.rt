//! The gateway: what is kept of all that was taken. Contracts see it as `Kept` of
//! `specs/Standing.antt`.
ghost use Rattle.std.specs.Prelude.{◌≡◌, [], List as Values, IfOk};
ghost use Rattle.gateway_core.specs.Arrivals.{Arrival, moments_of, schedule_at};
ghost use Rattle.gateway_core.specs.Settings.{IsWindowIn};
ghost use Rattle.gateway_core.specs.Standing.{Stands};

use crate::setting::Setting;
use crate::state::State;
use feed_index::FeedIndex;
use gw_base::{List, Moment};
use journey_model::{Context, DatedReading};
use service_day::Window;
use siri_calls::write_delivery;
use std::alloc::{AllocError, Global};
use std::marker::Model;

/// Of all deliveries and feeds that were taken what is needed to serve: of each journey the entity of its latest
/// record, of each situation number the alert of its newest version, and the SIRI text of the last feed; and the
/// window, which rolls with the moments of what is taken. No reading and no situation is kept beside the bytes.
#[derive(Drop)]
pub struct Gateway {
    pub(crate) setting: Setting,
    pub(crate) state: State,
}

impl Model for Gateway {
    ghost use Rattle.std.specs.Coded.{codes};
    ghost use Rattle.gateway_core.specs.Standing.{Kept};
    ghost use Rattle.gateway_core.specs.contracts.setting.Setting as settings;

    ghost Value = { Kept };

    ghost coded = { Prim.hlevel (codes, settings.the_row.coded) };

    ghost use Rattle.gateway_core.specs.Changes.{IsWindowOf, kept_of};

    ghost view = { λ g. kept_of g.setting g.state };

    ghost invariant = { λ g. IsWindowOf g.setting g.state.window };
}

impl Gateway {
    /// A gateway that took nothing yet: its SIRI text is that of a feed without journeys at the moment 0, and says that
    /// there is none when it is read again. Err for want of memory.
    pub fn start(alloc: Global, setting: Setting) -> Result<Gateway, AllocError>
        ensures setting { IfOk result (λ gate. gate.setting ≡ setting) }
        ensures stands { IfOk result (λ gate. Stands gate []) }
    {
        let nothing: List<DatedReading> = List::new(alloc);
        let moment = Moment::new(0).unwrap();
        // What the text says when it is read again rests on both.
        setting.table.soundness_law();
        let _ = moment.secs();
        let text = write_delivery(alloc, &setting.context(), nothing.as_slice(), moment)?;
        let window = Window::make(&setting.zone, setting.window.first(), setting.window.days())?;
        Ok(Gateway {
            setting,
            state: State {
                window,
                journeys: FeedIndex::make(alloc),
                situations: FeedIndex::make(alloc),
                text,
            },
        })
    }

    /// The window of service days as it has rolled (GTFS Schedule, service days).
    pub fn window(&self) -> &Window
        ensures value { result.now ≡ self.now.window }
    {
        &self.state.window
    }

    /// What journeys are read over now, lent: the window is one of the context's zone.
    pub fn context(&self) -> Context<'_>
        ensures shows { (arrivals : Values Arrival) → Stands self.now arrivals
            → result ≡ schedule_at self.now.setting (moments_of arrivals) }
        ensures own_window { IsWindowIn result.zone result.window }
    {
        self.setting.context_over(&self.state.window)
    }
}
