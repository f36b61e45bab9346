//! Why an item is set aside, and the text that tells it. The definition is `fault_text` of `specs/FaultTexts.antt`.
ghost use Rattle.std.specs.Prelude.{◌≡◌, ◌++◌, codes, decimal};
ghost use Rattle.std.specs.Fmt.{signed_decimal};
ghost use Rattle.journey_model.specs.FaultTexts as texts;

use gw_base::{Member, ShortText};
use itoa::Buffer;

/// Why an item of a delivery, an update of a feed or a situation is set aside.
#[derive(Clone, Copy, Debug, PartialEq, Eq)]
pub enum Fault {
    /// A member is missing though it is required, or has a wrong form.
    BadField(Member),
    /// The journey is an extra one.
    AddedJourney,
    /// No trip has the id.
    UnknownJourney,
    /// The day isn't in the window.
    OutOfWindow,
    /// The trip doesn't run on the day.
    NotRunning,
    /// The call or update of this number is of a stop that the trip doesn't have.
    UnknownStop(u64),
    /// The call or update of this number is of no stop after the one before.
    OutOfOrder(u64),
    /// The call or update of this number has a delay, in seconds, of over a week.
    DelayRange(u64, i128),
    /// No further journey or situation is kept.
    Full,
    /// None of the references of a situation is known; the member of the first.
    UnknownRef(Member),
    /// A situation refers to nothing.
    NoAffects,
    /// The entity of an alert has this many bytes, which are too many.
    EntityTooLong(u64),
    /// An update names no service day.
    NoDate,
    /// The update of this number has a stop_sequence of another stop than its stop_id.
    StopMismatch(u64),
    /// The update of this number has no time.
    NoTime(u64),
    /// The schedule_relationship of a trip or an update is another than those that are read.
    OtherRelation(i32),
    /// The update of this number is assigned to a stop that isn't of its stop's station.
    OtherPlace(u64),
    /// The ids of the places that aren't the scheduled stops have this many bytes in sum, which are too many.
    PlacesTooLong(u64),
}

/// The text of a fault. A contract sees its bytes.
pub type FaultText = ShortText;

// The text of a delay out of range.
fn of_delay(number: u64, delay: i128) -> FaultText
    ensures { result ≡ codes "DelayRange " ++ decimal number ++ codes " " ++ signed_decimal delay }
{
    let mut digits = Buffer::new();
    ShortText::of_number_and_word("DelayRange ", number, digits.format(delay))
}

/// The text of a fault: its name, then its arguments, each after a space, numbers in decimal.
pub fn fault_text(fault: &Fault) -> FaultText
    ensures { result ≡ texts.fault_text fault.now }
{
    match fault {
        Fault::BadField(member) => ShortText::of_words("BadField ", member.name()),
        Fault::AddedJourney => ShortText::of("AddedJourney"),
        Fault::UnknownJourney => ShortText::of("UnknownJourney"),
        Fault::OutOfWindow => ShortText::of("OutOfWindow"),
        Fault::NotRunning => ShortText::of("NotRunning"),
        Fault::UnknownStop(number) => ShortText::of_number("UnknownStop ", *number),
        Fault::OutOfOrder(number) => ShortText::of_number("OutOfOrder ", *number),
        Fault::DelayRange(number, delay) => of_delay(*number, *delay),
        Fault::Full => ShortText::of("Full"),
        Fault::UnknownRef(member) => ShortText::of_words("UnknownRef ", member.name()),
        Fault::NoAffects => ShortText::of("NoAffects"),
        Fault::EntityTooLong(bytes) => ShortText::of_number("EntityTooLong ", *bytes),
        Fault::NoDate => ShortText::of("NoDate"),
        Fault::StopMismatch(number) => ShortText::of_number("StopMismatch ", *number),
        Fault::NoTime(number) => ShortText::of_number("NoTime ", *number),
        Fault::OtherRelation(relation) => ShortText::of_signed("OtherRelation ", *relation),
        Fault::OtherPlace(number) => ShortText::of_number("OtherPlace ", *number),
        Fault::PlacesTooLong(bytes) => ShortText::of_number("PlacesTooLong ", *bytes),
    }
}
