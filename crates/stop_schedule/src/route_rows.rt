//! The rows of `routes.txt`: ids that differ.
use crate::sheet::Sheet;
use crate::table_fault::TableFault;
use crate::table_file::TableFile;
use crate::taking::TakesRows;
use std::alloc::Global;
use timetable::Ids;

/// The ids of the rows, in order.
#[derive(Drop)]
pub(crate) struct RouteRows {
    pub(crate) ids: Ids,
}

impl TakesRows for RouteRows {
    ghost use Rattle.std.specs.Prelude.{◌≡◌, ◌<◌, map, length};
    ghost use Rattle.stop_schedule.specs.Causes.{duplicate_fault};
    ghost use Rattle.stop_schedule.specs.Places.{own_id};
    ghost use Rattle.stop_schedule.specs.Sheet.{nth};
    ghost use Rattle.stop_schedule.specs.declared.table_file.TableFile.TheVariants.{Routes};

    ghost file_of = { λ _. Routes };

    ghost fault = { λ _. duplicate_fault Routes };

    ghost given = { λ _. 0 };

    ghost Keeps = { λ taker number. length taker.ids < number };

    ghost Holds = { λ _ taker rows. taker.ids ≡ map (nth own_id) rows };

    fn file(&self) -> TableFile {
        TableFile::Routes
    }

    fn take(&mut self, alloc: Global, sheet: &Sheet<'_>, number: u64) -> Result<(), TableFault> {
        let added = self.ids.add(alloc, sheet.field(0))?;
        if !added {
            return Err(TableFault::Duplicate(TableFile::Routes, number));
        }
        Ok(())
    }
}
