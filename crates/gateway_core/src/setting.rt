//! What a command works over: a timetable, and a window of days in a zone.
ghost use Rattle.gateway_core.specs.Settings.{IsWindowIn};

use journey_model::Context;
use service_day::{Window, Zone};
use timetable::Timetable;

/// A timetable with the zone of its times, and the window of service days that are served, which is one of that zone.
#[derive(Drop)]
pub struct Setting {
    /// What the GTFS Schedule folder says.
    pub table: Timetable,
    /// The zone of the timetable's times.
    pub zone: Zone,
    /// The service days, with their starts in the zone.
    pub window: Window,
    /// How many days before the local one are kept, at most 31 and fewer than the window has; without it the window
    /// stays.
    pub keep: Option<u8>,
    pub ghost own_window: { IsWindowIn zone window },
}

impl Setting {
    ghost use Rattle.std.specs.Prelude.{◌≡◌};
    ghost use Rattle.gateway_core.specs.Deliveries.{schedule_in, schedule_over};

    /// The same, lent: the window is one of the context's zone.
    pub fn context(&self) -> Context<'_>
        ensures shows { result ≡ schedule_in self.now }
        ensures own_window { IsWindowIn result.zone result.window }
    {
        self.context_over(&self.window)
    }

    // The same over another window, lent.
    pub(crate) fn context_over<'a>(&'a self, window: &'a Window) -> Context<'a>
        ensures { result ≡ schedule_over self.now window.now }
    {
        Context {
            table: &self.table,
            zone: &self.zone,
            window,
        }
    }
}
