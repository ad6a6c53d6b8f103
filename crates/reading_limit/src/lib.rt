//! How many bytes of what parts of a file share may be read.
//!
//! Parts of a file may overlap: many units may have the end of one table, and many entries one long text. Then a short file has far
//! more bytes to read than it is long. What a compiler and a linker make doesn't come near such a limit.
#![tactic(auto)]

ghost use Rattle.std.specs.Prelude.{◌≡◌, ◌+◌, ◌-◌, ◌^◌, ◌<◌, min, MatchOption};

/// How many bytes may still be read.
#[derive(Clone, Copy)]
pub struct ReadingLimit {
    pub left: u64,
}

impl ReadingLimit {
    /// So many bytes may be read.
    pub fn of(bytes: u64) -> ReadingLimit
        ensures { result.left ≡ bytes }
    {
        ReadingLimit { left: bytes }
    }

    /// Takes in that so many bytes are read. None where fewer may be, and then nothing changes.
    pub fn take(&mut self, bytes: u64) -> Option<()>
        ensures { MatchOption result ((self.old.left < bytes) × (self.new ≡ self.old)) (λ _. self.new.left + bytes ≡ self.old.left) }
    {
        self.left = self.left.checked_sub(bytes)?;
        Some(())
    }

    /// So many bytes more may be read, up to 2^64 - 1 in all.
    pub fn widen(&mut self, bytes: u64)
        ensures { self.new.left ≡ min (self.old.left + bytes) (2 ^ 64 - 1) }
    {
        self.left = self.left.saturating_add(bytes);
    }
}
