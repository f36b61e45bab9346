//! The names of the members that are read, which are those of `specs/ReadMembers.antt`.
ghost use Rattle.std.specs.Prelude.{◌≡◌};
ghost use Rattle.std.specs.Str.{bytes_eq};
ghost use Rattle.siri_calls.specs.ReadMembers as spec;

use json_tree::Names;

// Whether a name is another one. Most differ in their lengths, which are looked at without a call.
#[inline(always)]
fn is_named(name: &str, other: &str) -> bool
    ensures { result ≡ bytes_eq name.now other.now }
{
    name.len() == other.len() && name == other
}

// Whether this is the name of a member of a call, or under which a text stands.
fn is_call_member(name: &str) -> bool
    ensures { result ≡ spec.is_call_member name.now }
{
    is_named(name, "value")
        || is_named(name, "StopPointRef")
        || is_named(name, "Order")
        || is_named(name, "ExpectedArrivalTime")
        || is_named(name, "ExpectedDepartureTime")
        || is_named(name, "ArrivalStatus")
        || is_named(name, "DepartureStatus")
        || is_named(name, "Cancellation")
        || is_named(name, "ExtraCall")
        || is_named(name, "ActualArrivalTime")
        || is_named(name, "ActualDepartureTime")
}

// Whether this is the name of a member of a journey.
fn is_journey_member(name: &str) -> bool
    ensures { result ≡ spec.is_journey_member name.now }
{
    is_named(name, "RecordedAtTime")
        || is_named(name, "FramedVehicleJourneyRef")
        || is_named(name, "DataFrameRef")
        || is_named(name, "DatedVehicleJourneyRef")
        || is_named(name, "ExtraJourney")
        || is_named(name, "EstimatedCalls")
        || is_named(name, "EstimatedCall")
        || is_named(name, "RecordedCalls")
        || is_named(name, "RecordedCall")
}

// Whether this is the name of a member on the way down to the journeys.
fn is_frame_member(name: &str) -> bool
    ensures { result ≡ spec.is_frame_member name.now }
{
    is_named(name, "EstimatedVehicleJourney")
        || is_named(name, "EstimatedJourneyVersionFrame")
        || is_named(name, "EstimatedTimetableDelivery")
        || is_named(name, "ResponseTimestamp")
        || is_named(name, "ServiceDelivery")
        || is_named(name, "Siri")
}

/// The members of a delivery of estimated timetables that say something.
pub(crate) struct ReadMembers;

impl Names for ReadMembers {
    ghost use Rattle.siri_calls.specs.ReadMembers.{is_read};

    ghost has = { is_read };

    fn has(name: &str) -> bool {
        is_call_member(name) || is_journey_member(name) || is_frame_member(name)
    }
}
