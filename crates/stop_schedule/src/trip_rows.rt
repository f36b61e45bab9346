//! The rows of `trips.txt`: the trips, with their routes and services.
ghost use Rattle.std.specs.Prelude.{◌≡◌};

use crate::column::Column;
use crate::guesses::Guesses;
use crate::id_fields::find_from;
use crate::sheet::Sheet;
use crate::table_fault::TableFault;
use crate::table_file::TableFile;
use crate::taking::TakesRows;
use std::alloc::Global;
use timetable::Ids;

/// The trips of the rows, each with the number of its route and of its service. Besides, where the next row's ids are
/// looked for at first: at a guess of its route, and at the last service.
#[derive(Drop)]
pub(crate) struct TripRows<'a> {
    pub(crate) known_routes: &'a Ids,
    pub(crate) services: Ids,
    pub(crate) trips: Ids,
    pub(crate) trip_routes: Vec<u32>,
    pub(crate) trip_services: Vec<u32>,
    pub(crate) next_route: Guesses,
    pub(crate) last_service: u32,
}

impl<'a> TakesRows for TripRows<'a> {
    ghost use Rattle.std.specs.Prelude.{◌≡◌, length, map};
    ghost use Rattle.stop_schedule.specs.Causes.{trip_fault};
    ghost use Rattle.stop_schedule.specs.Holding.{HoldsTrips};
    ghost use Rattle.stop_schedule.specs.Keeping.{KeepsTrips};
    ghost use Rattle.stop_schedule.specs.declared.table_file.TableFile.TheVariants.{Trips};

    ghost file_of = { λ _. Trips };

    ghost fault = { λ taker. trip_fault taker.known_routes.now };

    ghost given = { λ taker. length taker.known_routes.now };

    ghost Keeps = { λ taker number. KeepsTrips (length taker.known_routes.now) taker.trips taker.services
        taker.trip_routes.items number };

    ghost Holds = { λ start taker rows. (taker.known_routes.now ≡ start.known_routes.now)
        × HoldsTrips taker.known_routes.now taker.services taker.trips taker.trip_routes.items
        taker.trip_services.items rows };

    fn file(&self) -> TableFile {
        TableFile::Trips
    }

    fn take(&mut self, alloc: Global, sheet: &Sheet<'_>, number: u64) -> Result<(), TableFault> {
        let Some(route) = find_from(self.known_routes, sheet, 1, self.next_route.next()) else {
            return Err(TableFault::Unknown(TableFile::Trips, number, Column::RouteId));
        };
        let added = self.trips.add(alloc, sheet.field(0))?;
        if !added {
            return Err(TableFault::Duplicate(TableFile::Trips, number));
        }
        let Some(service) = sheet.text(2) else {
            return Err(TableFault::NotUtf8(TableFile::Trips, number));
        };
        let service = self
            .services
            .number_from(alloc, service, self.last_service)?;
        self.trip_routes.push(route)?;
        self.trip_services.push(service)?;
        self.next_route.note(route);
        self.last_service = service;
        Ok(())
    }
}
