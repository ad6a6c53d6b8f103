//! What a session of a race writes.

ghost use Rattle.std.specs.Prelude.{◌≡◌, ◌≤◌, ◌<◌, ◌+◌, [], Some, length, take, IfOk, OnErr, IsErr};
ghost use Rattle.outside.specs.Counts.{Rose};
ghost use Rattle.outside.specs.Written.{Appends};
ghost use Rattle.race_command.specs.declared.transcript.TheConstants.{MAX_RACE_BYTES};

use outside::{Failed, MemSink, Sink};
use std::alloc::Global;
use std::marker::Model;

/// The most bytes that all sessions of a race write together.
pub const MAX_RACE_BYTES: u64 = 1_073_741_824;

/// An output in memory that takes no piece which would make it longer than its limit.
#[derive(Drop)]
pub(crate) struct Transcript {
    sink: MemSink,
    limit: usize,
    faults: u64,
}

impl Model for Transcript {
    ghost use Rattle.std.specs.Prelude.{◌≤◌, length};
    ghost use Rattle.race_command.specs.Transcripts.{Held};

    ghost Value = { Held };

    ghost view = { λ t. record { bytes = t.sink.bytes; limit = t.limit; faults = t.faults } };

    ghost invariant = { λ t. length t.sink.bytes ≤ t.limit };
}

impl Transcript {
    /// An empty one.
    pub(crate) fn new(alloc: Global, limit: usize) -> Self
        ensures { result ≡ record { bytes = []; limit = limit; faults = 0 } }
    {
        Transcript {
            sink: MemSink::new(alloc),
            limit,
            faults: 0,
        }
    }

    /// All bytes that were taken.
    pub(crate) fn bytes(&self) -> &[u8]
        ensures { result.now ≡ self.now.bytes }
    {
        self.sink.bytes()
    }
}

impl Sink for Transcript {
    ghost write_faults = { λ t. t.faults };

    ghost written = { λ t. Some t.bytes };

    fn write(&mut self, piece: &[u8]) -> Result<usize, Failed>
        ensures within { IfOk result (λ n. n ≤ length piece.now) }
        ensures some { IfOk result (λ n. n ≡ 0 → length piece.now ≡ 0) }
        ensures appended { IfOk result (λ n. Appends (Some self.old.bytes) (Some self.new.bytes) (take n piece.now)) }
        ensures failed { OnErr result (Rose self.old.faults self.new.faults) }
        ensures unchanged { OnErr result (Appends (Some self.old.bytes) (Some self.new.bytes) []) }
        ensures counts { self.old.faults ≤ self.new.faults }

        ensures refused { self.old.limit < length self.old.bytes + length piece.now → IsErr result }
        ensures limit { self.new.limit ≡ self.old.limit }
        ensures limited { length self.new.bytes ≤ self.new.limit }
    {
        let left = self.limit - self.sink.bytes().len();
        let taken = if piece.len() <= left {
            self.sink.write(piece)
        } else {
            Err(Failed)
        };
        if taken.is_err() {
            self.faults = self.faults.saturating_add(1);
        }
        taken
    }
}
