//! The files of a GTFS Schedule folder.
ghost use Rattle.std.specs.Prelude.{◌≡◌};
ghost use Rattle.stop_schedule.specs.Timetable.{file_name};

/// A file of a GTFS Schedule folder that is read, in the order in which they are read.
#[derive(Clone, Copy, Debug, PartialEq, Eq)]
pub enum TableFile {
    /// `agency.txt`, the zones.
    Agency,
    /// `stops.txt`, the stops.
    Stops,
    /// `routes.txt`, the routes.
    Routes,
    /// `trips.txt`, the trips.
    Trips,
    /// `calendar.txt`, the weekdays of services.
    Calendar,
    /// `calendar_dates.txt`, the exceptions of services.
    CalendarDates,
    /// `frequencies.txt`, the trips that aren't carried.
    Frequencies,
    /// `stop_times.txt`, the stops of trips with their times.
    StopTimes,
}

impl TableFile {
    /// The file's name in its folder (GTFS Schedule reference, dataset files).
    pub fn name(&self) -> &'static str
        ensures { result.now ≡ file_name self.now }
    {
        match self {
            TableFile::Agency => "agency.txt",
            TableFile::Stops => "stops.txt",
            TableFile::Routes => "routes.txt",
            TableFile::Trips => "trips.txt",
            TableFile::Calendar => "calendar.txt",
            TableFile::CalendarDates => "calendar_dates.txt",
            TableFile::Frequencies => "frequencies.txt",
            TableFile::StopTimes => "stop_times.txt",
        }
    }
}
