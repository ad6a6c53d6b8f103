//! What stands before names, kept for entries with the same lexical parent.
//!
//! The methods of a class may stand far behind it, one after the other or among those of others, and what is behind an inner
//! scope stands in the outer one again.

ghost use Rattle.std.specs.Prelude.{◌≡◌, IfOk};
ghost use Rattle.std.specs.Option.{ForSome};
ghost use Rattle.shard_build.specs.Entries.{EntriesOf};
ghost use Rattle.qualified_names.specs.Fronts.{AreFronts};
ghost use Rattle.qualified_names.specs.Paths.{IsFrontAround};

use ix_base::NoMemory;
use std::alloc::Global;

// So many are kept,
const PLACES: usize = 256;

// and none that is longer: a short file may put one long scope around many others.
const MOST_BYTES: usize = 4096;

/// What stands before the C++ names of entries with this lexical parent: what the members of their scope path give, from the
/// outside inwards, each with `::` behind it. Without a parent nothing is around an entry.
#[derive(Drop)]
pub(crate) struct Around {
    pub(crate) parent: Option<u64>,
    pub(crate) front: Vec<u8>,
}

/// What stands before names that were formed of late.
#[derive(Drop)]
pub(crate) struct Fronts {
    // Each in the place that its parent gives.
    pub(crate) kept: Vec<Option<Around>>,
}

impl Fronts {
    /// None yet.
    pub(crate) fn new(alloc: Global) -> Result<Fronts, NoMemory>
        ensures { IfOk result (λ f. (e : EntriesOf) → AreFronts e f.kept.items) }
    {
        let mut kept = Vec::with_capacity(alloc, PLACES)?;
        for _ in 0..PLACES {
            kept.push(None)?;
        }
        Ok(Fronts { kept })
    }

    /// Takes out what stands before the names of entries with this lexical parent, if it is kept.
    pub(crate) fn take(&mut self, parent: Option<u64>) -> Option<Around>
        ensures kept { (e : EntriesOf) → AreFronts e self.old.kept.items → AreFronts e self.new.kept.items }
        ensures value { (e : EntriesOf) → AreFronts e self.old.kept.items → ForSome result (λ a. IsFrontAround e a.parent a.front.items) }
        ensures parent { ForSome result (λ a. a.parent ≡ parent) }
    {
        let slot = self.kept.get_mut(place_of(parent))?;
        match slot {
            Some(around) if around.parent == parent => slot.take(),
            _ => None,
        }
    }

    /// Keeps what stands before names, if it is short.
    pub(crate) fn put(&mut self, around: Around)
        ensures { (e : EntriesOf) → AreFronts e self.old.kept.items → IsFrontAround e around.parent around.front.items → AreFronts e self.new.kept.items }
    {
        if around.front.len() > MOST_BYTES {
            return;
        }
        if let Some(slot) = self.kept.get_mut(place_of(around.parent)) {
            *slot = Some(around);
        }
    }
}

// The place of what stands before the names of entries with this lexical parent.
fn place_of(parent: Option<u64>) -> usize {
    parent.unwrap_or(0) as usize % PLACES
}
