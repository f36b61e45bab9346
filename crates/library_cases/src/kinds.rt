//! The kinds of questions.

/// What a question is asked of.
#[derive(Clone, Copy, Debug, PartialEq, Eq)]
pub enum Kind {
    Delivery(DeliveryKind),
    Folder(FolderKind),
    Stop(StopKind),
    Day(DayKind),
    Zone(ZoneKind),
    Json,
}

impl Kind {
    /// Whether the folder itself is asked.
    pub fn is_folder(&self) -> bool {
        matches!(self, Kind::Folder(FolderKind::Read))
    }
}

/// A delivery's body, over a timetable, a zone and a window.
#[derive(Clone, Copy, Debug, PartialEq, Eq)]
pub enum DeliveryKind {
    Journeys,
    Situations,
    Written,
}

/// The folder, or what is found in its timetable.
#[derive(Clone, Copy, Debug, PartialEq, Eq)]
pub enum FolderKind {
    Read,
    Find,
    Runs,
}

/// What is matched to the stops of a trip.
#[derive(Clone, Copy, Debug, PartialEq, Eq)]
pub enum StopKind {
    Call,
    Update,
}

/// A text or a number of a day or a moment.
#[derive(Clone, Copy, Debug, PartialEq, Eq)]
pub enum DayKind {
    Day,
    Later,
    Seconds,
    Utc,
}

/// What is read in a zone, or as one.
#[derive(Clone, Copy, Debug, PartialEq, Eq)]
pub enum ZoneKind {
    Moment,
    Start,
    Date,
    Rule,
    File,
    Fronts,
}

/// The kind of that name.
pub fn kind_of(name: &str) -> Option<Kind> {
    match name {
        "json" => Some(Kind::Json),
        "delivery" => Some(Kind::Delivery(DeliveryKind::Journeys)),
        "situations" => Some(Kind::Delivery(DeliveryKind::Situations)),
        "written" => Some(Kind::Delivery(DeliveryKind::Written)),
        "folder" => Some(Kind::Folder(FolderKind::Read)),
        "find" => Some(Kind::Folder(FolderKind::Find)),
        "runs" => Some(Kind::Folder(FolderKind::Runs)),
        "call" => Some(Kind::Stop(StopKind::Call)),
        "update" => Some(Kind::Stop(StopKind::Update)),
        _ => kind_of_day(name),
    }
}

fn kind_of_day(name: &str) -> Option<Kind> {
    match name {
        "day" => Some(Kind::Day(DayKind::Day)),
        "later" => Some(Kind::Day(DayKind::Later)),
        "seconds" => Some(Kind::Day(DayKind::Seconds)),
        "utc" => Some(Kind::Day(DayKind::Utc)),
        "moment" => Some(Kind::Zone(ZoneKind::Moment)),
        "start" => Some(Kind::Zone(ZoneKind::Start)),
        "date" => Some(Kind::Zone(ZoneKind::Date)),
        "zone" => Some(Kind::Zone(ZoneKind::Rule)),
        "zone-file" => Some(Kind::Zone(ZoneKind::File)),
        "zone-fronts" => Some(Kind::Zone(ZoneKind::Fronts)),
        _ => None,
    }
}
