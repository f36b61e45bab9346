//! The names of the fields that a feed has to have.
ghost use Rattle.std.specs.Prelude.{◌≡◌};
ghost use Rattle.gw_base.specs.Required.{required_name};

/// A field of a feed that has to be there (GTFS Realtime reference, cardinality "Required").
#[derive(Clone, Copy, Debug, PartialEq, Eq)]
pub enum Required {
    /// `header` of a feed.
    Header,
    /// `gtfs_realtime_version` of its header.
    GtfsRealtimeVersion,
    /// `id` of an entity.
    Id,
    /// `trip` of a trip update.
    Trip,
    /// `text` of a translation.
    Text,
}

impl Required {
    /// The field's name, as `gtfs-realtime.proto` has it.
    pub fn name(&self) -> &'static str
        ensures { result.now ≡ required_name self.now }
    {
        match self {
            Required::Header => "header",
            Required::GtfsRealtimeVersion => "gtfs_realtime_version",
            Required::Id => "id",
            Required::Trip => "trip",
            Required::Text => "text",
        }
    }
}
