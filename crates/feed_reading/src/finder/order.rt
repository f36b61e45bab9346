//! Which of two faults comes first.
ghost use Rattle.std.specs.Prelude.{◌≡◌, ◌+◌, ◌*◌, ◌<◌, nat_le};
ghost use Rattle.feed_reading.specs.Faults.{order};
ghost use Rattle.feed_reading.specs.Found.{earlier_of};

use crate::fault::FeedFault;

// The place of a fault, and the rank of its kind.
fn place_and_rank(fault: &FeedFault) -> (u64, u64)
    ensures order { order fault.now ≡ result.0 * 4 + result.1 }
    ensures rank { result.1 < 4 }
{
    match fault {
        FeedFault::EntityTooLong(at) => (*at, 0),
        FeedFault::Wire(fault) => (fault.at, 1),
        FeedFault::NotText(at) => (*at, 2),
        FeedFault::MissingField(at, _) => (*at, 3),
        FeedFault::Memory => (0, 0),
    }
}

// Whether the first fault doesn't come after the second.
fn comes_first(a: &FeedFault, b: &FeedFault) -> bool
    ensures { result ≡ nat_le (order a.now) (order b.now) }
{
    let (place, rank) = place_and_rank(a);
    let (other, other_rank) = place_and_rank(b);
    place < other || place == other && rank <= other_rank
}

// The earlier of two faults.
pub fn earlier(a: Option<FeedFault>, b: Option<FeedFault>) -> Option<FeedFault>
    ensures { result ≡ earlier_of a b }
{
    match (a, b) {
        (Some(a), Some(b)) => Some(if comes_first(&a, &b) { a } else { b }),
        (Some(a), None) => Some(a),
        (None, b) => b,
    }
}
