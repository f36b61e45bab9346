//! The kinds of questions.
use gw_base::Moment;
use service_day::read_utc;

/// What a question is asked of.
#[derive(Clone, Copy, Debug)]
pub enum Kind {
    Spelled(SpelledKind),
    Bytes(BytesKind),
}

/// Bytes, of which a feed is asked over the sample folder.
#[derive(Clone, Copy, Debug)]
pub enum BytesKind {
    Fields(FieldsKind),
    Feed(FeedKind),
    Journeys(JourneysKind),
    /// The alerts of a feed as a delivery of that moment.
    Situations(Moment),
}

/// A number.
#[derive(Clone, Copy, Debug)]
pub enum SpelledKind {
    Varint,
    Header,
}

/// Fields of the protobuf encoding.
#[derive(Clone, Copy, Debug)]
pub enum FieldsKind {
    Whole,
    Fronts,
    EachByte,
}

/// The bytes of a feed.
#[derive(Clone, Copy, Debug)]
pub enum FeedKind {
    Whole,
    Fronts,
}

/// What a feed says of journeys.
#[derive(Clone, Copy, Debug)]
pub enum JourneysKind {
    Readings,
    Show,
    /// As a delivery of that moment.
    Delivery(Moment),
}

fn of_fields(kind: FieldsKind) -> Kind {
    Kind::Bytes(BytesKind::Fields(kind))
}

fn of_journeys(kind: JourneysKind) -> Kind {
    Kind::Bytes(BytesKind::Journeys(kind))
}

/// The kind of that name, and of a moment.
pub fn kind_of(name: &str, moment: &str) -> Option<Kind> {
    match name {
        "varint" => Some(Kind::Spelled(SpelledKind::Varint)),
        "header" => Some(Kind::Spelled(SpelledKind::Header)),
        "fields" => Some(of_fields(FieldsKind::Whole)),
        "fields-fronts" => Some(of_fields(FieldsKind::Fronts)),
        "each-byte" => Some(of_fields(FieldsKind::EachByte)),
        "feed" => Some(Kind::Bytes(BytesKind::Feed(FeedKind::Whole))),
        "feed-fronts" => Some(Kind::Bytes(BytesKind::Feed(FeedKind::Fronts))),
        "readings" => Some(of_journeys(JourneysKind::Readings)),
        "show" => Some(of_journeys(JourneysKind::Show)),
        _ => kind_at(name, moment_of(moment)?),
    }
}

fn kind_at(name: &str, moment: Moment) -> Option<Kind> {
    match name {
        "to-siri" => Some(of_journeys(JourneysKind::Delivery(moment))),
        "to-siri-sx" => Some(Kind::Bytes(BytesKind::Situations(moment))),
        _ => None,
    }
}

fn moment_of(text: &str) -> Option<Moment> {
    Moment::new(read_utc(text)?)
}
