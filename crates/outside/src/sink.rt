//! An output that takes bytes in pieces.

ghost use Rattle.std.specs.Prelude.{◌≡◌, ℕ, ◌≤◌, List, [], Option, length, take, IfOk, OnOk, OnErr};
ghost use Rattle.outside.specs.Counts.{Rose};
ghost use Rattle.outside.specs.Written.{Appends, AppendsPrefix};

use crate::shelf::Failed;

/// An output that takes bytes in pieces, with a count of faults.
pub trait Sink {
    ghost write_faults: { Self → ℕ };

    // All bytes that were taken, or None where that isn't told.
    ghost written: { Self → Option (List ℕ) };

    /// Takes bytes from the front of the piece, and says how many. To take none of a piece that
    /// isn't empty is a failure, and a failure takes none.
    fn write(&mut self, piece: &[u8]) -> Result<usize, Failed>
        ensures within { IfOk result (λ n. n ≤ length piece.now) }
        ensures some { IfOk result (λ n. n ≡ 0 → length piece.now ≡ 0) }
        ensures appended { IfOk result (λ n. Appends (written self.old) (written self.new) (take n piece.now)) }
        ensures failed { OnErr result (Rose (write_faults self.old) (write_faults self.new)) }
        ensures unchanged { OnErr result (Appends (written self.old) (written self.new) []) }
        ensures counts { write_faults self.old ≤ write_faults self.new };
}

/// Writes all bytes, piece after piece. Where that fails, a prefix of them was written.
pub fn write_all<K: Sink>(out: &mut K, bytes: &[u8]) -> Result<(), Failed>
    ensures ok { OnOk result (Appends (K.written out.old) (K.written out.new) bytes.now) }
    ensures failed { OnErr result (Rose (K.write_faults out.old) (K.write_faults out.new)) }
    ensures left { OnErr result (AppendsPrefix (K.written out.old) (K.written out.new) bytes.now) }
    ensures counts { K.write_faults out.old ≤ K.write_faults out.new }
{
    let mut done = 0;
    while done < bytes.len() {
        done += out.write(&bytes[done..])?;
    }
    Ok(())
}
