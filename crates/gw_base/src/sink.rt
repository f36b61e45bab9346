//! Where bytes are written to, and the one way to write all of a text.
ghost use Rattle.std.specs.Prelude.{◌≡◌, ℕ, ◌<◌, ◌≤◌, List, Option, length, take, OnOk, OnErr, IfOk, IsErr};
ghost use Rattle.gw_base.specs.Count.{Rose, Counts};
ghost use Rattle.gw_base.specs.Told.{with_bytes, PutsUnless};
ghost use Rattle.gw_base.specs.Connections.{Beside, nothing_beside};

/// A call to the outside failed. The count of faults of the object rose.
#[derive(Clone, Copy, Debug, PartialEq, Eq)]
pub struct Failed;

/// Something that takes bytes, as standard output, a connection or a buffer in memory.
pub trait Sink {
    /// What is written to it so far, where it tells.
    ghost told: { Self → Option (List ℕ) };

    /// How many faults it met. The count never falls, and stands still at the last value of a u64.
    ghost faults: { Self → ℕ };

    /// What it shows beside what is written, and no write changes: of a door, its connections.
    ghost beside: { Self → Beside } = { λ _. nothing_beside };

    /// Appends a prefix of the piece, of at least one byte, and answers how many bytes; or fails and appends nothing.
    fn write(&mut self, piece: &[u8]) -> Result<usize, Failed>
        requires { 0 < length piece.now }
        ensures some { IfOk result (λ n. (0 < n) × (n ≤ length piece.now)) }
        ensures appended { IfOk result (λ n. told self.new ≡ with_bytes (told self.old) (take n piece.now)) }
        ensures failed { OnErr result (told self.new ≡ told self.old) }
        ensures counts { Counts (IsErr result) (faults self.old) (faults self.new) }
        ensures others { beside self.new ≡ beside self.old };
}

/// Writes all the bytes, in as many pieces as the sink takes. After a failure a prefix of them is written.
/// Takes no memory.
pub fn put_all<S: Sink>(sink: &mut S, bytes: &[u8]) -> Result<(), Failed>
    ensures all { OnOk result (S.told sink.new ≡ with_bytes (S.told sink.old) bytes.now) }
    ensures front { PutsUnless (Rose (S.faults sink.old) (S.faults sink.new)) (S.told sink.old)
        (S.told sink.new) bytes.now }
    ensures counts { Counts (IsErr result) (S.faults sink.old) (S.faults sink.new) }
    ensures others { S.beside sink.new ≡ S.beside sink.old }
{
    let mut done = 0;
    while done < bytes.len() {
        let (_, rest) = bytes.split_at(done);
        done += sink.write(rest)?;
    }
    Ok(())
}
