//! A script, whose lines a session answers.

ghost use Rattle.std.specs.Prelude.{◌≡◌, Some};

use outside::{Failed, Source};

/// The most bytes of a script.
pub const MAX_SCRIPT_BYTES: u64 = 1_048_576;

/// The rest of a script as an input.
#[derive(Clone, Copy)]
pub(crate) struct Script<'s> {
    rest: &'s [u8],
}

impl<'s> Script<'s> {
    pub(crate) fn new(bytes: &'s [u8]) -> Script<'s>
        ensures { result.rest.now ≡ bytes.now }
    {
        Script { rest: bytes }
    }
}

impl Source for Script<'_> {
    ghost use Rattle.std.specs.Prelude.{Some};

    // No read of it fails.
    ghost read_faults = { λ _. 0 };

    ghost left = { λ s. Some s.rest.now };

    fn read(&mut self, into: &mut [u8]) -> Result<usize, Failed> {
        let count = self.rest.len().min(into.len());
        let (given, rest) = self.rest.split_at(count);
        into[..count].copy_from_slice(given);
        self.rest = rest;
        Ok(count)
    }
}
