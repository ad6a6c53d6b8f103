//! Standard output as an output that takes bytes in pieces.

ghost use Rattle.std.specs.Prelude.{◌≡◌, ℕ, ◌≤◌, [], None, length, take, IfOk, OnErr};
ghost use Rattle.std.specs.Io.KnownBytes.{WriteAppends};
ghost use Rattle.outside.specs.Counts.{Rose};
ghost use Rattle.outside.specs.Written.{Appends};

use crate::device::write_some;
use crate::shelf::Failed;
use crate::sink::Sink;
use std::io::{self, Write};

/// What prints, as a writer of bytes.
#[derive(Drop)]
pub struct Printed<P> {
    to: P,
}

impl<P: Print> Write for Printed<P> {
    fn write(&mut self, piece: &[u8]) -> io::Result<usize> {
        self.to.write_some(piece)
    }

    fn flush(&mut self) -> io::Result<()> {
        Ok(())
    }
}

/// A writer of the system, as standard output, unbuffered. It tells nothing of what was written, and keeps the error of its last
/// failure.
#[derive(Drop)]
pub struct StreamSink<W> {
    stream: W,
    faults: u64,
    error: Option<io::Error>,
}

impl<P: Print + Drop> StreamSink<Printed<P>> {
    /// The standard output of this runtime.
    pub fn new(stream: P) -> Self
        ensures { ⟦<StreamSink<Printed<P>> as Sink>⟧.write_faults result ≡ 0 }
    {
        StreamSink {
            stream: Printed { to: stream },
            faults: 0,
            error: None,
        }
    }
}

impl<W: Write + Drop> StreamSink<W> {
    /// Why the last write that failed did so; None where none failed.
    pub fn error(&self) -> Option<io::Error>
        ensures { result ≡ self.now.error }
    {
        self.error
    }
}

impl<W: Write + Drop> Sink for StreamSink<W> {
    ghost write_faults = { λ s. s.faults };

    ghost written = { λ _. None };

    fn write(&mut self, piece: &[u8]) -> Result<usize, Failed>
        ensures within { IfOk result (λ n. n ≤ length piece.now) }
        ensures some { IfOk result (λ n. n ≡ 0 → length piece.now ≡ 0) }
        ensures appended { IfOk result (λ n. Appends None None (take n piece.now)) }
        ensures failed { OnErr result (Rose self.old.faults self.new.faults) }
        ensures unchanged { OnErr result (Appends None None []) }
        ensures counts { self.old.faults ≤ self.new.faults }

        // What the stream took, where it tells its bytes: as many as are told, or none at a failure.
        ensures took { WriteAppends (W.contents self.old.stream) (W.contents self.new.stream) result piece.now }
    {
        match write_some(&mut self.stream, piece) {
            Ok(count) => Ok(count),
            Err(error) => {
                self.faults = self.faults.saturating_add(1);
                self.error = Some(error);
                Err(Failed)
            }
        }
    }
}
