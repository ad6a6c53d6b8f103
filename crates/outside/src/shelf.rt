//! A store of files by name.

ghost use Rattle.std.specs.Prelude.{◌≡◌, ℕ, ◌≤◌, Option, length, drop, IfOk, OnOk, OnErr};
ghost use Rattle.outside.specs.Counts.{Rose};
ghost use Rattle.outside.specs.Files.{Files, SameFiles, ReadsPiece, Stored, StoredOrPrefix};

/// A call that the outside refused.
#[derive(Clone, Copy, Debug, PartialEq, Eq)]
pub struct Failed;

/// A store of files by name, with a count of faults for each of its three calls.
pub trait Shelf {
    ghost read_faults: { Self → ℕ };

    ghost store_faults: { Self → ℕ };

    ghost kept_faults: { Self → ℕ };

    // What each name holds, or None where that isn't told.
    ghost files: { Self → Option Files };

    /// Reads bytes of the file from the byte `at` on into the front of `into`, and says how many.
    /// That is 0 only at or past the file's end, or where `into` is empty. A name that isn't there
    /// is a failure.
    fn read_at(&mut self, name: &str, at: u64, into: &mut [u8]) -> Result<usize, Failed>
        ensures within { IfOk result (λ n. n ≤ length into.old) }
        ensures rest { IfOk result (λ n. drop n into.new ≡ drop n into.old) }
        ensures piece { IfOk result (λ n. ReadsPiece (files self.old) name.now at into.old into.new n) }
        ensures failed { OnErr result (Rose (read_faults self.old) (read_faults self.new)) }
        ensures kept { SameFiles (files self.old) (files self.new) }
        ensures reads { read_faults self.old ≤ read_faults self.new }
        ensures stores { store_faults self.new ≡ store_faults self.old }
        ensures kept_reads { kept_faults self.new ≡ kept_faults self.old };

    /// Reads bytes as `read_at` does, of a file that can be made again: one that was kept. Its failures have a count of their own,
    /// so that a caller who goes on without the file tells them from those of the files that it was asked to read.
    fn read_kept(&mut self, name: &str, at: u64, into: &mut [u8]) -> Result<usize, Failed>
        ensures within { IfOk result (λ n. n ≤ length into.old) }
        ensures rest { IfOk result (λ n. drop n into.new ≡ drop n into.old) }
        ensures piece { IfOk result (λ n. ReadsPiece (files self.old) name.now at into.old into.new n) }
        ensures failed { OnErr result (Rose (kept_faults self.old) (kept_faults self.new)) }
        ensures kept { SameFiles (files self.old) (files self.new) }
        ensures reads { read_faults self.new ≡ read_faults self.old }
        ensures stores { store_faults self.new ≡ store_faults self.old }
        ensures kept_reads { kept_faults self.old ≤ kept_faults self.new };

    /// Makes the bytes what the name holds. Where that fails, the name holds what it held before or
    /// a prefix of the bytes, which may be empty.
    fn store(&mut self, name: &str, bytes: &[u8]) -> Result<(), Failed>
        ensures ok { OnOk result (Stored (files self.old) (files self.new) name.now bytes.now) }
        ensures failed { OnErr result (Rose (store_faults self.old) (store_faults self.new)) }
        ensures left { OnErr result (StoredOrPrefix (files self.old) (files self.new) name.now bytes.now) }
        ensures reads { read_faults self.new ≡ read_faults self.old }
        ensures stores { store_faults self.old ≤ store_faults self.new }
        ensures kept_reads { kept_faults self.new ≡ kept_faults self.old };
}
