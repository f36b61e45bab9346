//! Moving the live spans of a region together.
ghost use Rattle.std.specs.Prelude.{◌≡◌, ◌+◌, ◌-◌, ◌≤◌, length, vec_capacity};
ghost use Rattle.span_pool.specs.Spans.{live_bytes};
ghost use Rattle.span_pool.specs.Places.{AreBelow, AreDistinct, Ascends, IsMoved, cut, standing};

use crate::place::Place;

/// Moves the live spans together at the front of the region, in the order in which they stand, and cuts off what is
/// after them.
pub(crate) fn pack(bytes: &mut Vec<u8>, places: &mut Vec<Place>, in_use: &[usize])
    requires distinct { AreDistinct in_use.now }
    requires below { AreBelow in_use.now (length places.old.items) }
    requires ascend { Ascends 0 (standing places.old.items in_use.now) (length bytes.old.items) }
    ensures same { cut bytes.new.items (standing places.new.items in_use.now)
        ≡ cut bytes.old.items (standing places.old.items in_use.now) }
    ensures ascend { Ascends 0 (standing places.new.items in_use.now) (length bytes.new.items) }
    ensures live { length bytes.new.items
        ≡ live_bytes (cut bytes.old.items (standing places.old.items in_use.now)) }
    ensures rows { length places.new.items ≡ length places.old.items }
    ensures bytes_room { vec_capacity bytes.new ≡ vec_capacity bytes.old }
    ensures places_room { vec_capacity places.new ≡ vec_capacity places.old }
{
    let mut end = 0;
    for slot in in_use {
        let place = places[*slot];
        if place.is_taken() {
            let moved = move_down(bytes, place, end);
            places[*slot] = moved;
            end = moved.end;
        }
    }
    bytes.truncate(end);
}

/// Moves the bytes at a place down to `to`, and answers where they stand then. The bytes below and those after the
/// place stay.
fn move_down(bytes: &mut Vec<u8>, place: Place, to: usize) -> Place
    requires ordered { place.start ≤ place.end }
    requires within { place.end ≤ length bytes.old.items }
    requires down { to ≤ place.start }
    ensures moved { IsMoved bytes.old.items bytes.new.items place to }
    ensures place { result ≡ record { start = to; end = to + (place.end - place.start) } }
    ensures room { vec_capacity bytes.new ≡ vec_capacity bytes.old }
{
    if to < place.start {
        bytes.copy_within(place.start..place.end, to);
    }
    Place {
        start: to,
        end: to + (place.end - place.start),
    }
}
