//! An output in memory, whose calls can be made to fail or to take short pieces.

ghost use Rattle.std.specs.Prelude.{◌≡◌, ℕ, ◌-◌, ◌+◌, ◌≤◌, ◌<◌, ◌^◌, List, [], ◌∷◌, ◌++◌, Option, Some, length, take, IfOk, OnOk, OnErr, IsErr};
ghost use Rattle.outside.specs.Counts.{Rose};
ghost use Rattle.outside.specs.Written.{Appends};
ghost use Rattle.outside.specs.MemSinks.{taken_by, IsToFail, after_taking, after_fault};

use crate::shelf::Failed;
use crate::sink::Sink;
use std::alloc::{AllocError, Global};
use std::marker::Model;

/// An output in memory. It keeps the bytes that it took, the numbers of the calls that are to fail,
/// counted from 1, and how many bytes each call takes at most; calls past that list take all.
#[derive(Drop)]
pub struct MemSink {
    bytes: Vec<u8>,
    failing: Vec<u64>,
    sizes: Vec<u64>,
    calls: u64,
    faults: u64,
}

impl Model for MemSink {
    ghost use Rattle.outside.specs.MemSinks.{SinkSeen};

    ghost Value = { SinkSeen };

    ghost view = { λ s. record {
      bytes = s.bytes.items;
      failing = s.failing.items;
      sizes = s.sizes.items;
      calls = s.calls;
      faults = s.faults;
    } };
}

impl MemSink {
    /// An empty output that takes all bytes of each call.
    pub fn new(alloc: Global) -> Self
        ensures { result ≡ record { bytes = []; failing = []; sizes = []; calls = 0; faults = 0 } }
    {
        MemSink {
            bytes: Vec::new(alloc),
            failing: Vec::new(alloc),
            sizes: Vec::new(alloc),
            calls: 0,
            faults: 0,
        }
    }

    /// Makes the call with this number fail. The first call is 1.
    pub fn fail_write(&mut self, call: u64) -> Result<(), AllocError>
        ensures ok { OnOk result (self.new ≡ record self.old { failing = self.old.failing ++ call ∷ [] }) }
        ensures err { OnErr result (self.new ≡ self.old) }
    {
        self.failing.push(call)?;
        Ok(())
    }

    /// Makes the next call in the list of sizes take at most so many bytes. A call that is to take
    /// none of a piece that isn't empty fails.
    pub fn take_at_most(&mut self, size: u64) -> Result<(), AllocError>
        ensures ok { OnOk result (self.new ≡ record self.old { sizes = self.old.sizes ++ size ∷ [] }) }
        ensures err { OnErr result (self.new ≡ self.old) }
    {
        self.sizes.push(size)?;
        Ok(())
    }

    /// All bytes that were taken.
    pub fn bytes(&self) -> &[u8]
        ensures { result.now ≡ self.now.bytes }
    {
        self.bytes.as_slice()
    }

    /// How many calls of `write` there were.
    pub fn calls(&self) -> u64
        ensures { result ≡ self.now.calls }
    {
        self.calls
    }

    /// How many of them failed.
    pub fn faults(&self) -> u64
        ensures { result ≡ self.now.faults }
    {
        self.faults
    }
}

/// How many bytes of a piece the call with this number takes.
fn taken_by(sizes: &[u64], call: u64, len: usize) -> usize
    ensures { result ≡ taken_by sizes.now call len }
{
    let size = match sizes.get(call.saturating_sub(1) as usize) {
        Some(size) => *size,
        None => len as u64,
    };
    len.min(size as usize)
}

impl Sink for MemSink {
    ghost write_faults = { λ s. s.faults };

    ghost written = { λ s. Some s.bytes };

    fn write(&mut self, piece: &[u8]) -> Result<usize, Failed>
        ensures within { IfOk result (λ n. n ≤ length piece.now) }
        ensures some { IfOk result (λ n. n ≡ 0 → length piece.now ≡ 0) }
        ensures appended { IfOk result (λ n. Appends (Some self.old.bytes) (Some self.new.bytes) (take n piece.now)) }
        ensures failed { OnErr result (Rose self.old.faults self.new.faults) }
        ensures unchanged { OnErr result (Appends (Some self.old.bytes) (Some self.new.bytes) []) }
        ensures counts { self.old.faults ≤ self.new.faults }

        ensures planned { IsToFail self.old → IsErr result }
        ensures none_taken { 0 < length piece.now → taken_by self.old.sizes self.new.calls (length piece.now) ≡ 0 → IsErr result }
        ensures taken { IfOk result (λ n. n ≡ taken_by self.old.sizes self.new.calls (length piece.now)) }
        ensures ok { IfOk result (λ n. self.new ≡ after_taking self.old (take n piece.now)) }
        ensures err { OnErr result (self.new ≡ after_fault self.old) }
    {
        self.calls = self.calls.saturating_add(1);
        let taken = taken_by(&self.sizes, self.calls, piece.len());
        let refused = self.failing.contains(&self.calls) || (taken == 0 && !piece.is_empty());
        if refused || self.bytes.extend_from_slice(&piece[..taken]).is_err() {
            self.faults = self.faults.saturating_add(1);
            return Err(Failed);
        }
        Ok(taken)
    }
}
