//! Where in a head its last byte stands, so that each byte is looked at once, in whatever pieces it comes. What a place
//! means is `place_of` of `specs/Places.antt`, over all bytes so far.
ghost use Rattle.std.specs.Prelude.{◌≡◌, ℕ, List, false};
ghost use Rattle.http_talk.specs.Ends.{ends_head};
ghost use Rattle.http_talk.specs.Places as places;

/// Where the bytes so far end, which are no whole head.
#[derive(Clone, Copy, Debug, PartialEq, Eq)]
pub(crate) enum Place {
    /// After empty lines alone, or before any byte.
    Blank,
    /// There after a CR.
    BlankReturn,
    /// Inside a line.
    Inside,
    /// At the start of a line after others.
    Start,
    /// There after a CR.
    StartReturn,
}

/// What bytes that follow come to.
#[derive(Clone, Copy, Debug, PartialEq, Eq)]
pub(crate) enum Scan {
    /// The head goes on.
    Open(Place),
    /// The head ends after so many of the bytes.
    Ended(usize),
}

// The place after LF; there is none where the head ends.
fn after_feed(place: Place) -> Option<Place>
    ensures { result ≡ places.after_feed place }
{
    match place {
        Place::Blank | Place::BlankReturn => Some(Place::Blank),
        Place::Inside => Some(Place::Start),
        Place::Start | Place::StartReturn => None,
    }
}

// The place after CR.
fn after_return(place: Place) -> Place
    ensures { result ≡ places.after_return place }
{
    match place {
        Place::Blank => Place::BlankReturn,
        Place::Start => Place::StartReturn,
        Place::BlankReturn | Place::Inside | Place::StartReturn => Place::Inside,
    }
}

// The place after a byte; there is none where the head ends.
fn after(place: Place, byte: u8) -> Option<Place>
    ensures { result ≡ places.after place byte }
{
    match byte {
        b'\n' => after_feed(place),
        b'\r' => Some(after_return(place)),
        _ => Some(Place::Inside),
    }
}

// What the bytes after a place come to. Each is looked at once, up to the head's end.
fn moved(place: Place, bytes: &[u8]) -> Scan
    ensures { result ≡ places.scanned place 0 bytes.now }
{
    let mut at = place;
    let mut count = 0;
    let mut rest = bytes;
    while let Some((byte, later)) = rest.split_first() {
        count += 1;
        match after(at, *byte) {
            Some(next) => at = next,
            None => return Scan::Ended(count),
        }
        rest = later;
    }
    Scan::Open(at)
}

/// What the bytes come to that follow others, which are no whole head and leave this place.
pub(crate) fn look_on(place: Place, bytes: &[u8]) -> Scan
    ensures { (before : List ℕ) → ends_head before ≡ false → places.place_of before ≡ place
        → places.ScanMeans before 0 bytes.now result }
{
    moved(place, bytes)
}
