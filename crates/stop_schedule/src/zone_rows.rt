//! The rows of `agency.txt`: zone names, of which all are equal.
ghost use Rattle.std.specs.Prelude.{◌≡◌};

use crate::sheet::Sheet;
use crate::table_fault::TableFault;
use crate::table_file::TableFile;
use crate::taking::TakesRows;
use gw_base::{Bytes, List};
use std::alloc::Global;

/// The zone name of the first row.
#[derive(Drop)]
pub(crate) struct ZoneRows {
    pub(crate) first: Option<Bytes>,
}

impl TakesRows for ZoneRows {
    ghost use Rattle.std.specs.Prelude.{◌≡◌, ⊤, option_map};
    ghost use Rattle.stop_schedule.specs.Causes.{zone_fault, first_row};
    ghost use Rattle.stop_schedule.specs.Places.{agency_timezone};
    ghost use Rattle.stop_schedule.specs.Sheet.{nth};
    ghost use Rattle.stop_schedule.specs.declared.table_file.TableFile.TheVariants.{Agency};

    ghost file_of = { λ _. Agency };

    ghost fault = { λ _. zone_fault };

    ghost given = { λ _. 0 };

    ghost Keeps = { λ _ _. ⊤ };

    ghost Holds = { λ _ taker rows. taker.first ≡ option_map (nth agency_timezone) (first_row rows) };

    fn file(&self) -> TableFile {
        TableFile::Agency
    }

    fn take(&mut self, alloc: Global, sheet: &Sheet<'_>, number: u64) -> Result<(), TableFault> {
        let zone = sheet.field(0);
        match &self.first {
            Some(first) => {
                if first.as_slice() != zone {
                    return Err(TableFault::Zones(number));
                }
            }
            None => {
                self.first = Some(List::copied(alloc, zone)?);
            }
        }
        Ok(())
    }
}
