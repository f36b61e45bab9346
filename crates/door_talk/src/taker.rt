//! What takes the body of a POST while it arrives.
ghost use Rattle.std.specs.Prelude.{◌≡◌, ◌≤◌, [], length, vec_capacity, OnOk};
ghost use Rattle.gw_base.specs.Limits.{body_limit};

use gw_base::{Bytes, Kind, Moment};
use std::alloc::{AllocError, Global};

/// What takes the body of a POST piece by piece, over something that stays as it is in the meantime. A body that is
/// needed whole is kept, and another is read on the way.
pub trait TakesBody<G> {
    ghost use Rattle.std.specs.Prelude.{◌≡◌, ◌≤◌, ◌<◌, ◌+◌, ◌++◌, ℕ, ℤ, List, [], length, OnOk};
    ghost use Rattle.gw_base.specs.declared.kind.Kind as kinds;

    /// It stands for these first bytes of a body of a kind that is posted at a moment.
    ghost stands: { G → Self → ℤ → kinds.Kind → List ℕ → Type 0 };

    /// How many bytes it took.
    ghost taken: { Self → ℕ };

    /// Begins with a body of a kind and so many bytes that is posted at a moment.
    fn begin(
        &mut self,
        alloc: Global,
        over: &G,
        moment: Moment,
        kind: Kind,
        size: usize,
    ) -> Result<(), AllocError>
        ensures begins { OnOk result (stands over.now self.new moment kind []) }
        ensures none { taken self.new ≡ 0 };

    /// Takes the next bytes of the body, which has at most 16,777,216. After Err it may only begin again.
    fn take(&mut self, over: &G, piece: &[u8]) -> Result<(), AllocError>
        requires some { 0 < length piece.now }
        requires room { taken self.old + length piece.now ≤ body_limit }
        ensures takes { (moment : ℤ) (kind : kinds.Kind) (bytes : List ℕ)
            → stands over.now self.old moment kind bytes
            → OnOk result (stands over.now self.new moment kind (bytes ++ piece.now)) }
        ensures counted { OnOk result (taken self.new ≡ taken self.old + length piece.now) }
        ensures within { taken self.new ≤ taken self.old + length piece.now };
}

// The bytes taken out of a vector, and room made for so many.
fn make_room(bytes: &mut Vec<u8>, size: usize) -> Result<(), AllocError>
    ensures empty { bytes.new.items ≡ [] }
    ensures room { OnOk result (size ≤ vec_capacity bytes.new) }
{
    bytes.clear();
    bytes.reserve_exact(size)
}

// Empty bytes with room for so many.
fn with_room(bytes: Bytes, size: usize) -> (Bytes, Result<(), AllocError>)
    ensures empty { result.0 ≡ [] }
{
    let mut room = bytes.into_vec();
    let made = make_room(&mut room, size);
    (Bytes::from_vec(room), made)
}

/// A body that is kept whole: room for it is made when it begins.
impl<G> TakesBody<G> for Bytes {
    ghost stands = { λ _ held _ _ bytes. held ≡ bytes };

    ghost taken = { length };

    fn begin(
        &mut self,
        alloc: Global,
        _over: &G,
        _moment: Moment,
        _kind: Kind,
        size: usize,
    ) -> Result<(), AllocError> {
        let held = std::mem::replace(self, Bytes::new(alloc));
        let (room, made) = with_room(held, size);
        *self = room;
        made
    }

    fn take(&mut self, _over: &G, piece: &[u8]) -> Result<(), AllocError> {
        self.extend(piece)
    }
}
