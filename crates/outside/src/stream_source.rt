//! A stream as an input that gives its bytes in pieces.

ghost use Rattle.std.specs.Prelude.{◌≡◌, ℕ, ◌≤◌, ◌<◌, [], None, length, take, IfOk, OnErr};
ghost use Rattle.std.specs.Io.KnownBytes.{ReadConsumes};
ghost use Rattle.outside.specs.Counts.{Rose};
ghost use Rattle.outside.specs.Taken.{Takes, IsAtEnd};

use crate::device::read_some;
use crate::shelf::Failed;
use crate::source::Source;
use std::io::{self, Read};

/// A stream of the system, as standard input or an open file. It tells nothing of what is left, and keeps the error of its last
/// failure.
#[derive(Drop)]
pub struct StreamSource<T> {
    stream: T,
    faults: u64,
    error: Option<io::Error>,
}

impl<T: Read + Drop> StreamSource<T> {
    /// This stream, from where it stands on.
    pub fn new(stream: T) -> Self
        ensures { ⟦<StreamSource<T> as Source>⟧.read_faults result ≡ 0 }
    {
        StreamSource {
            stream,
            faults: 0,
            error: None,
        }
    }

    /// Why the last read that failed did so; None where none failed.
    pub fn error(&self) -> Option<io::Error>
        ensures { result ≡ self.now.error }
    {
        self.error
    }
}

impl<T: Read + Drop> Source for StreamSource<T> {
    ghost read_faults = { λ s. s.faults };

    ghost left = { λ _. None };

    fn read(&mut self, into: &mut [u8]) -> Result<usize, Failed>
        ensures within { IfOk result (λ n. n ≤ length into.old) }
        ensures taken { IfOk result (λ n. Takes None None (take n into.new)) }
        ensures end { IfOk result (λ n. n ≡ 0 → 0 < length into.old → IsAtEnd None) }
        ensures failed { OnErr result (Rose self.old.faults self.new.faults) }
        ensures unchanged { OnErr result (Takes None None []) }
        ensures counts { self.old.faults ≤ self.new.faults }

        // What the stream gave, where it tells its bytes: they, its end, or nothing at a failure.
        ensures gave { ReadConsumes (T.remaining self.old.stream) (T.remaining self.new.stream) result into.new }
    {
        match read_some(&mut self.stream, into) {
            Ok(count) => Ok(count),
            Err(error) => {
                self.faults = self.faults.saturating_add(1);
                self.error = Some(error);
                Err(Failed)
            }
        }
    }
}
