//! An input that gives its bytes in pieces.

ghost use Rattle.std.specs.Prelude.{◌≡◌, ℕ, ◌≤◌, ◌<◌, List, [], Option, length, take, IfOk, OnErr};
ghost use Rattle.outside.specs.Counts.{Rose};
ghost use Rattle.outside.specs.Taken.{Takes, IsAtEnd};

use crate::shelf::Failed;

/// An input that gives its bytes in pieces, with a count of faults.
pub trait Source {
    ghost read_faults: { Self → ℕ };

    // The bytes that are left, or None where that isn't told.
    ghost left: { Self → Option (List ℕ) };

    /// Takes the next bytes into the front of `into`, and says how many. Where `into` isn't empty,
    /// 0 is the end. A failure takes none.
    fn read(&mut self, into: &mut [u8]) -> Result<usize, Failed>
        ensures within { IfOk result (λ n. n ≤ length into.old) }
        ensures taken { IfOk result (λ n. Takes (left self.old) (left self.new) (take n into.new)) }
        ensures end { IfOk result (λ n. n ≡ 0 → 0 < length into.old → IsAtEnd (left self.new)) }
        ensures failed { OnErr result (Rose (read_faults self.old) (read_faults self.new)) }
        ensures unchanged { OnErr result (Takes (left self.old) (left self.new) []) }
        ensures counts { read_faults self.old ≤ read_faults self.new };
}
