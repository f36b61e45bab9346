//! A piece of a connection's input, of no more bytes than are wanted.
ghost use Rattle.std.specs.Prelude.{◌≡◌, ◌≤◌, ◌<◌, true, length, take, IfOk, IsErr, OnErr};
ghost use Rattle.gw_base.specs.Connections.{Takes};
ghost use Rattle.gw_base.specs.Count.{Counts};

use gw_base::{Door, Failed};

/// Reads the next bytes of the present connection's input into the front of `piece`, at most so many, and answers how
/// many came: 0 exactly at the input's end.
pub fn read_piece<D: Door>(door: &mut D, piece: &mut [u8], most: usize) -> Result<usize, Failed>
    requires present { (D.beside door.old).present ≡ true }
    requires room { 0 < length piece.old }
    requires some { 0 < most }
    ensures room { length piece.new ≡ length piece.old }
    ensures count { IfOk result (λ n. n ≤ length piece.old) }
    ensures most { IfOk result (λ n. n ≤ most) }
    ensures taken { IfOk result (λ n. Takes (D.beside door.old) (D.beside door.new) (take n piece.new)) }
    ensures failed { OnErr result (D.beside door.new ≡ D.beside door.old) }
    ensures output { D.told door.new ≡ D.told door.old }
    ensures counts { Counts (IsErr result) (D.faults door.old) (D.faults door.new) }
{
    let wanted = most.min(piece.len());
    let (part, _) = piece.split_at_mut(wanted);
    door.read(part)
}
