//! The columns that are read of a GTFS Schedule folder's files.
ghost use Rattle.std.specs.Prelude.{◌≡◌};
ghost use Rattle.stop_schedule.specs.Columns.{column_name};

/// A column that is read of a file of a GTFS Schedule folder.
#[derive(Clone, Copy, Debug, PartialEq, Eq)]
pub enum Column {
    /// `agency_timezone`
    AgencyTimezone,
    /// `stop_id`
    StopId,
    /// `parent_station`
    ParentStation,
    /// `route_id`
    RouteId,
    /// `trip_id`
    TripId,
    /// `service_id`
    ServiceId,
    /// `monday`
    Monday,
    /// `tuesday`
    Tuesday,
    /// `wednesday`
    Wednesday,
    /// `thursday`
    Thursday,
    /// `friday`
    Friday,
    /// `saturday`
    Saturday,
    /// `sunday`
    Sunday,
    /// `start_date`
    StartDate,
    /// `end_date`
    EndDate,
    /// `date`
    Date,
    /// `exception_type`
    ExceptionType,
    /// `stop_sequence`
    StopSequence,
    /// `arrival_time`
    ArrivalTime,
    /// `departure_time`
    DepartureTime,
}

impl Column {
    /// The column's name in the first row of its file (GTFS Schedule reference, field definitions).
    pub fn name(&self) -> &'static str
        ensures { result.now ≡ column_name self.now }
    {
        match self {
            Column::AgencyTimezone => "agency_timezone",
            Column::StopId => "stop_id",
            Column::ParentStation => "parent_station",
            Column::RouteId => "route_id",
            Column::TripId => "trip_id",
            Column::ServiceId => "service_id",
            Column::Monday => "monday",
            Column::Tuesday => "tuesday",
            Column::Wednesday => "wednesday",
            Column::Thursday => "thursday",
            Column::Friday => "friday",
            Column::Saturday => "saturday",
            Column::Sunday => "sunday",
            Column::StartDate => "start_date",
            Column::EndDate => "end_date",
            Column::Date => "date",
            Column::ExceptionType => "exception_type",
            Column::StopSequence => "stop_sequence",
            Column::ArrivalTime => "arrival_time",
            Column::DepartureTime => "departure_time",
        }
    }
}
