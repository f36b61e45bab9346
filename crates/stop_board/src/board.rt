//! The board of a stop. Contracts see it as `Board` of `specs/Boards.antt`.
ghost use Rattle.std.specs.Prelude.{◌≡◌, ◌<◌, ◌++◌, [], length, OnOk, OnErr, IfOk};
ghost use Rattle.journey_model.specs.Schedules.{FitsSchedule};
ghost use Rattle.stop_board.specs.BoardTree.{IsBoardText};
ghost use Rattle.stop_board.specs.Boards.{IsOver};
ghost use Rattle.stop_board.specs.Visits as spec;

use crate::sorting::{first_visits, sorted_visits};
use crate::visits::{Asked, Visit, visits_of};
use crate::writing::write_board;
use gw_base::{Bytes, Moment};
use journey_model::{Context, DatedReading};
use std::alloc::{AllocError, Global};
use std::marker::Model;
use timetable::StopNo;

/// The board of a stop (SIRI 2.0, StopMonitoring service): the visits that the journeys which were added make there
/// within its minutes, and nothing else of them. A contract sees what it was asked for and the visits, in the order in
/// which they came.
#[derive(Drop)]
pub struct Board {
    alloc: Global,
    asked: Asked,
    visits: Vec<Visit>,
}

impl Model for Board {
    ghost use Rattle.stop_board.specs.Boards.{Board};

    ghost Value = { Board };

    ghost view = { λ b. record { asked = b.asked; visits = b.visits.items } };
}

impl Board {
    /// The board of a stop from a moment on for so many minutes, without visits yet. It takes no memory.
    pub fn make(alloc: Global, stop: StopNo, from: Moment, minutes: u32) -> Board
        ensures made { result ≡ record {
          asked = record { stop = stop; from = from; minutes = minutes };
          visits = [];
        } }
    {
        Board {
            alloc,
            asked: Asked {
                stop,
                from,
                minutes,
            },
            visits: Vec::new(alloc),
        }
    }

    /// Adds the visits of a journey (SIRI 2.0, MonitoredStopVisit): its calls at the stop that fall within the minutes.
    /// A journey that doesn't say when it was recorded has none. Err for want of memory, and then the board is as
    /// before.
    pub fn add(&mut self, context: &Context<'_>, journey: &DatedReading) -> Result<(), AllocError>
        requires fits { FitsSchedule context.now journey.now.trip.0 journey.now.day journey.now.reading }
        ensures asked { self.new.asked ≡ self.old.asked }
        ensures visits { OnOk result
            (self.new.visits ≡ self.old.visits ++ spec.visits_of self.old.asked journey.now) }
        ensures kept { OnErr result (self.new ≡ self.old) }
        ensures over { IsOver context.now self.old → IsOver context.now self.new }
    {
        let visits = visits_of(self.alloc, &self.asked, journey)?;
        self.visits.extend_from_slice(visits.as_slice())
    }

    /// The delivery that shows the first so many visits of the board, sorted by arrival, departure, service day, trip
    /// and position, as JSON without blanks (SIRI 2.0, StopMonitoringDelivery; after SIRI Lite). The moment is that of
    /// the delivery. The stop is one of the timetable, and the journeys were added over this context. The time is that
    /// of sorting the visits. Err for want of memory.
    pub fn text(
        &self,
        context: &Context<'_>,
        moment: Moment,
        most: u32,
    ) -> Result<Bytes, AllocError>
        requires stop { self.now.asked.stop.0 < length context.now.table.stops }
        requires over { IsOver context.now self.now }
        ensures text { IfOk result (IsBoardText context.now self.now.asked.stop self.now.visits moment most) }
    {
        let sorted = sorted_visits(self.alloc, self.visits.as_slice())?;
        let first = first_visits(sorted.as_slice(), most);
        write_board(self.alloc, context, self.asked.stop, first, moment)
    }
}
