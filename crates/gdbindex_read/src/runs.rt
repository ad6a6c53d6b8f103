//! Which vectors of the constant pool have elements of units alone.
//!
//! A writer lets names share a vector, and others may let vectors begin inside one another. As long as no more elements were read
//! than the pool has bytes they are read vector by vector. After that, once, the pool is read from its end to its front, and each
//! place of it gets the length of its run: the elements of units that stand there one after the other. Then a vector is
//! compared with the run behind its count.

ghost use Rattle.std.specs.Prelude.{◌≡◌, ◌+◌, IfSome, IsTrue, List, ℕ, slice_index};
ghost use Rattle.gdbindex_read.specs.Pool.{are_of_units, vector_in};
ghost use Rattle.gdbindex_read.specs.Runs.{AreKnown, AreRuns, IsRun};

use crate::area::u32_at;
use crate::elements::{ELEMENT_LENGTH, Elements, is_of};
use std::alloc::Global;

/// The length of the run at each place of a pool.
#[derive(Drop)]
pub(crate) struct Runs {
    lengths: Vec<u32>,
}

impl Runs {
    /// The runs of a pool. None where no memory is left for them.
    pub fn of(alloc: Global, pool: &[u8], units: usize) -> Option<Runs>
        ensures { IfSome result (λ r. AreRuns pool.now units r.lengths.items) }
    {
        let mut lengths = vec![in alloc; 0u32; pool.len()].ok()?;
        for passed in 0..pool.len() {
            let place = pool.len() - 1 - passed;
            let length = length_at(pool, units, &lengths, place);
            lengths[place] = length;
        }
        Some(Runs { lengths })
    }

    /// Whether the run at a place has so many elements.
    fn has(&self, place: usize, count: usize) -> bool
        ensures { (pool : List ℕ) (units : ℕ) → AreRuns pool units self.now.lengths.items → IsTrue result → IsRun pool units place count }
    {
        count <= run_at(&self.lengths, place) as usize
    }
}

// The length that is kept of the run at a place. Behind the pool there are none.
fn run_at(lengths: &[u32], place: usize) -> u32
    ensures { result ≡ slice_index lengths.now place }
{
    lengths.get(place).copied().unwrap_or(0)
}

// The length of the run at a place, by that of the run at the next element.
fn length_at(pool: &[u8], units: usize, lengths: &[u32], place: usize) -> u32
    requires { AreRuns pool.now units lengths.now }
    ensures { IsRun pool.now units place result }
{
    let left = pool.len().saturating_sub(place);
    if left < ELEMENT_LENGTH || !is_of(u32_at(pool, place), units) {
        return 0;
    }
    run_at(lengths, place + ELEMENT_LENGTH).saturating_add(1)
}

/// What was seen of vectors.
#[derive(Drop)]
pub(crate) struct VectorsSeen {
    alloc: Global,
    // How many elements may still be read vector by vector.
    left: usize,
    runs: Option<Runs>,
}

impl VectorsSeen {
    /// None of a pool with so many bytes.
    pub fn none(alloc: Global, bytes: usize) -> VectorsSeen
        ensures { (pool : List ℕ) (units : ℕ) → AreKnown pool units result }
    {
        VectorsSeen {
            alloc,
            left: bytes,
            runs: None,
        }
    }

    /// Whether a vector of units alone lies at an offset of the pool.
    pub fn has(&mut self, pool: &[u8], units: usize, offset: u32) -> bool
        requires { AreKnown pool.now units self.old }
        ensures value { result ≡ are_of_units units (vector_in pool.now offset) }
        ensures known { AreKnown pool.now units self.new }
    {
        let Some(elements) = Elements::read(pool, offset) else {
            return false;
        };
        let count = elements.len();
        if self.may_read(count) {
            return elements.are_of(units);
        }
        self.is_in_run(pool, units, offset, count) || elements.are_of(units)
    }

    // Whether so many elements may be read.
    fn may_read(&mut self, count: usize) -> bool
        ensures { self.new.runs ≡ self.old.runs }
    {
        let may = count <= self.left;
        self.left = self.left.saturating_sub(count);
        may
    }

    // Whether so many elements behind a count are in one run.
    fn is_in_run(&mut self, pool: &[u8], units: usize, offset: u32, count: usize) -> bool
        requires { AreKnown pool.now units self.old }
        ensures run { IsTrue result → IsRun pool.now units (offset + 4) count }
        ensures known { AreKnown pool.now units self.new }
    {
        if self.runs.is_none() {
            self.runs = Runs::of(self.alloc, pool, units);
        }
        match &self.runs {
            Some(runs) => runs.has(offset as usize + ELEMENT_LENGTH, count),
            None => false,
        }
    }
}
