//! The rows of `frequencies.txt`: trips that aren't carried.
ghost use Rattle.std.specs.Prelude.{◌≡◌};

use crate::column::Column;
use crate::id_fields::find_in;
use crate::sheet::Sheet;
use crate::table_fault::TableFault;
use crate::table_file::TableFile;
use crate::taking::TakesRows;
use std::alloc::Global;
use timetable::Ids;

/// Of each trip of `trips.txt`, whether it is carried.
#[derive(Drop)]
pub(crate) struct FrequencyRows<'a> {
    pub(crate) trips: &'a Ids,
    pub(crate) carried: Vec<bool>,
}

impl<'a> TakesRows for FrequencyRows<'a> {
    ghost use Rattle.std.specs.Prelude.{◌≡◌, ⊤, map};
    ghost use Rattle.stop_schedule.specs.Causes.{frequency_fault};
    ghost use Rattle.stop_schedule.specs.Trips.{is_carried};
    ghost use Rattle.stop_schedule.specs.declared.table_file.TableFile.TheVariants.{Frequencies};

    ghost file_of = { λ _. Frequencies };

    ghost fault = { λ taker. frequency_fault taker.trips.now };

    ghost given = { λ _. 0 };

    ghost Keeps = { λ _ _. ⊤ };

    ghost Holds = { λ start taker rows. (taker.trips.now ≡ start.trips.now)
        × (taker.carried.items ≡ map (is_carried rows) taker.trips.now) };

    fn file(&self) -> TableFile {
        TableFile::Frequencies
    }

    fn take(&mut self, _alloc: Global, sheet: &Sheet<'_>, number: u64) -> Result<(), TableFault> {
        let Some(trip) = find_in(self.trips, sheet, 0) else {
            return Err(TableFault::Unknown(TableFile::Frequencies, number, Column::TripId));
        };
        if let Some(carried) = self.carried.get_mut(trip as usize) {
            *carried = false;
        }
        Ok(())
    }
}
