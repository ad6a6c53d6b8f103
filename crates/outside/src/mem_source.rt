//! An input in memory, whose calls can be made to fail or to give short pieces.

ghost use Rattle.std.specs.Prelude.{◌≡◌, ℕ, ◌-◌, ◌+◌, ◌≤◌, ◌<◌, ◌^◌, List, [], ◌∷◌, ◌++◌, Option, Some, length, take, drop, min, IfOk, OnOk, OnErr, IsErr};
ghost use Rattle.outside.specs.Counts.{Rose};
ghost use Rattle.outside.specs.Taken.{Takes, IsAtEnd};
ghost use Rattle.outside.specs.MemSources.{given_by, IsToFail, after_giving, after_fault};

use crate::shelf::Failed;
use crate::source::Source;
use std::alloc::{AllocError, Global};
use std::marker::Model;

/// An input in memory. It keeps its bytes, the numbers of the calls that are to fail, counted from
/// 1, and how many bytes each call gives at most, which is at least 1; calls past that list fill
/// what they are given.
#[derive(Drop)]
pub struct MemSource {
    bytes: Vec<u8>,
    taken: usize,
    failing: Vec<u64>,
    sizes: Vec<u64>,
    calls: u64,
    faults: u64,
}

impl Model for MemSource {
    ghost use Rattle.std.specs.Prelude.{◌≤◌, length, drop, All};
    ghost use Rattle.outside.specs.MemSources.{SourceSeen};

    ghost Value = { SourceSeen };

    ghost view = { λ s. record {
      left = drop s.taken s.bytes.items;
      failing = s.failing.items;
      sizes = s.sizes.items;
      calls = s.calls;
      faults = s.faults;
    } };

    ghost invariant = { λ s. (s.taken ≤ length s.bytes.items) × All (λ size. 1 ≤ size) s.sizes.items };
}

impl MemSource {
    /// An input of these bytes, which fills what each call gives it.
    pub fn new(alloc: Global, bytes: &[u8]) -> Result<Self, AllocError>
        ensures { IfOk result (λ source. source ≡ record { left = bytes.now; failing = []; sizes = []; calls = 0; faults = 0 }) }
    {
        Ok(MemSource {
            bytes: Vec::from_slice(alloc, bytes)?,
            taken: 0,
            failing: Vec::new(alloc),
            sizes: Vec::new(alloc),
            calls: 0,
            faults: 0,
        })
    }

    /// Makes the call with this number fail. The first call is 1.
    pub fn fail_read(&mut self, call: u64) -> Result<(), AllocError>
        ensures ok { OnOk result (self.new ≡ record self.old { failing = self.old.failing ++ call ∷ [] }) }
        ensures err { OnErr result (self.new ≡ self.old) }
    {
        self.failing.push(call)?;
        Ok(())
    }

    /// Makes the next call in the list of sizes give at most so many bytes.
    pub fn give_at_most(&mut self, size: u64) -> Result<(), AllocError>
        requires { 1 ≤ size }
        ensures ok { OnOk result (self.new ≡ record self.old { sizes = self.old.sizes ++ size ∷ [] }) }
        ensures err { OnErr result (self.new ≡ self.old) }
    {
        self.sizes.push(size)?;
        Ok(())
    }

    /// The bytes that are left.
    pub fn left(&self) -> &[u8]
        ensures { result.now ≡ self.now.left }
    {
        &self.bytes[self.taken..]
    }

    /// How many calls of `read` there were.
    pub fn calls(&self) -> u64
        ensures { result ≡ self.now.calls }
    {
        self.calls
    }

    /// How many of them failed.
    pub fn faults(&self) -> u64
        ensures { result ≡ self.now.faults }
    {
        self.faults
    }
}

/// How many bytes the call with this number gives to so much room at most.
fn given_by(sizes: &[u64], call: u64, room: usize) -> usize
    ensures { result ≡ given_by sizes.now call room }
{
    let size = match sizes.get(call.saturating_sub(1) as usize) {
        Some(size) => *size,
        None => room as u64,
    };
    room.min(size as usize)
}

/// Copies what fits into `into` of the bytes from a place on, and so many at most.
fn copy_front(bytes: &[u8], at: usize, most: usize, into: &mut [u8]) -> usize
    requires here { at ≤ length bytes.now }
    requires room { most ≤ length into.old }
    ensures count { result ≡ min most (length bytes.now - at) }
    ensures front { take result into.new ≡ take result (drop at bytes.now) }
{
    let rest = &bytes[at..];
    let count = rest.len().min(most);
    into[..count].copy_from_slice(&rest[..count]);
    count
}

impl Source for MemSource {
    ghost read_faults = { λ s. s.faults };

    ghost left = { λ s. Some s.left };

    fn read(&mut self, into: &mut [u8]) -> Result<usize, Failed>
        ensures within { IfOk result (λ n. n ≤ length into.old) }
        ensures taken { IfOk result (λ n. Takes (Some self.old.left) (Some self.new.left) (take n into.new)) }
        ensures end { IfOk result (λ n. n ≡ 0 → 0 < length into.old → IsAtEnd (Some self.new.left)) }
        ensures failed { OnErr result (Rose self.old.faults self.new.faults) }
        ensures unchanged { OnErr result (Takes (Some self.old.left) (Some self.new.left) []) }
        ensures counts { self.old.faults ≤ self.new.faults }

        ensures planned { IsToFail self.old → IsErr result }
        ensures count { IfOk result (λ n. n ≡ min (given_by self.old.sizes self.new.calls (length into.old)) (length self.old.left)) }
        ensures ok { IfOk result (λ n. self.new ≡ after_giving self.old n) }
        ensures err { OnErr result ((self.new ≡ after_fault self.old) × IsToFail self.old) }
    {
        self.calls = self.calls.saturating_add(1);
        if self.failing.contains(&self.calls) {
            self.faults = self.faults.saturating_add(1);
            return Err(Failed);
        }
        let most = given_by(&self.sizes, self.calls, into.len());
        let count = copy_front(&self.bytes, self.taken, most, into);
        self.taken += count;
        Ok(count)
    }
}
