//! What is read of each file: its columns in order. The functions meet `specs/Layout.antt`.
ghost use Rattle.std.specs.Prelude.{◌≡◌};
ghost use Rattle.stop_schedule.specs.Layout as spec;

use crate::column::Column;
use crate::forms::Form;
use crate::table_file::TableFile;

/// The columns that are read of a file, with their forms.
pub(crate) fn columns(file: TableFile) -> &'static [(Column, Form)]
    ensures { result.now ≡ spec.columns file }
{
    match file {
        TableFile::Agency => &[(Column::AgencyTimezone, Form::Any)],
        TableFile::Stops => &[
            (Column::StopId, Form::Id),
            (Column::ParentStation, Form::OptionalId),
        ],
        TableFile::Routes => &[(Column::RouteId, Form::Id)],
        TableFile::Trips => &[
            (Column::TripId, Form::Id),
            (Column::RouteId, Form::Id),
            (Column::ServiceId, Form::Id),
        ],
        TableFile::Calendar => &[
            (Column::ServiceId, Form::Id),
            (Column::Monday, Form::Flag),
            (Column::Tuesday, Form::Flag),
            (Column::Wednesday, Form::Flag),
            (Column::Thursday, Form::Flag),
            (Column::Friday, Form::Flag),
            (Column::Saturday, Form::Flag),
            (Column::Sunday, Form::Flag),
            (Column::StartDate, Form::Date),
            (Column::EndDate, Form::Date),
        ],
        TableFile::CalendarDates => &[
            (Column::ServiceId, Form::Id),
            (Column::Date, Form::Date),
            (Column::ExceptionType, Form::Exception),
        ],
        TableFile::Frequencies => &[(Column::TripId, Form::Id)],
        TableFile::StopTimes => &[
            (Column::TripId, Form::Id),
            (Column::StopSequence, Form::Sequence),
            (Column::StopId, Form::Id),
            (Column::ArrivalTime, Form::Time),
            (Column::DepartureTime, Form::Time),
        ],
    }
}

/// Whether a file may lack a column. Such a column is the last that is read of its file, and is left out where it is
/// missing.
pub(crate) fn is_optional(column: Column) -> bool
    ensures { result ≡ spec.is_optional column }
{
    match column {
        Column::ParentStation => true,
        _ => false,
    }
}
