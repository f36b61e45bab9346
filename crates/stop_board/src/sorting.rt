//! The visits of a board in their order. The functions meet `specs/Visits.antt`.
ghost use Rattle.std.specs.Prelude.{◌≡◌, IfOk, take};
ghost use Rattle.std.specs.List.Sorted.{IsPermutation, IsSorted, IsStable};
ghost use Rattle.stop_board.specs.Visits.{visit_cmp};

use crate::visits::Visit;
use service_day::Day;
use std::alloc::{AllocError, Global};
use timetable::TripNo;

// What the visits are sorted by.
fn place_of(visit: &Visit) -> (i64, i64, Day, TripNo, usize)
    ensures { result ≡ (visit.now.arrival, visit.now.departure, visit.now.day, visit.now.trip, visit.now.position) }
{
    (
        visit.arrival,
        visit.departure,
        visit.day,
        visit.trip,
        visit.position,
    )
}

/// The visits sorted by arrival, departure, service day, trip number and position.
pub(crate) fn sorted_visits(alloc: Global, visits: &[Visit]) -> Result<Vec<Visit>, AllocError>
    ensures same { IfOk result (λ sorted. IsPermutation visits.now sorted.items) }
    ensures in_order { IfOk result (λ sorted. IsSorted visit_cmp sorted.items) }
    ensures in_turn { IfOk result (λ sorted. IsStable visit_cmp visits.now sorted.items) }
{
    let mut sorted = Vec::from_slice(alloc, visits)?;
    sorted.sort_by_key(place_of)?;
    Ok(sorted)
}

/// The first so many of visits, or all where there are fewer.
pub(crate) fn first_visits(visits: &[Visit], most: u32) -> &[Visit]
    ensures { result.now ≡ take most visits.now }
{
    if visits.len() <= most as usize {
        return visits;
    }
    let (first, _) = visits.split_at(most as usize);
    first
}
