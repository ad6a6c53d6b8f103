//! The ranges that were found so far, and the lists that were read for them.
//!
//! Many units, and many subprograms of one unit, may name one list, or lists that begin inside one another. Behind ranges that
//! have all addresses of a list it shows no other unit, so each list is read once, and so is the end that many have.

ghost use Rattle.std.specs.Prelude.{◌≡◌, ◌⊎◌, [], Contains, IsTrue, List, OnOk};
ghost use Rattle.index_model.specs.Sections.{Section};
ghost use Rattle.range_lists.specs.Found.{AreRead};
ghost use Rattle.range_lists.specs.declared.found.RangeList.{RangeList};

use crate::list_entry::ListFormat;
use index_model::UnitRange;
use ix_base::NoMemory;
use std::alloc::Global;
use std::collections::BTreeSet;

// How many ranges lists may give for each byte of their sections, and how many beside. A list may count from another base in each
// unit, and then it gives other ranges in each.
const RANGES: u64 = 4;

const RANGES_BESIDE: u64 = 1 << 16;

/// A list, by all that its ranges depend on.
#[derive(Clone, Copy, PartialEq, Eq, PartialOrd, Ord, Drop)]
pub(crate) struct RangeList {
    pub(crate) format: ListFormat,
    /// Where it begins in its section.
    pub(crate) place: u64,
    /// The base from which it counts at first.
    pub(crate) base: u64,
    /// Where the unit's part of `.debug_addr` begins.
    pub(crate) addr_base: Option<u64>,
}

/// Ranges of the first units of a file, which show the same unit at each address as all ranges of these units.
#[derive(Drop)]
pub struct FoundRanges {
    pub(crate) ranges: Vec<UnitRange>,
    pub(crate) lists: BTreeSet<RangeList>,
    // How many ranges lists gave.
    pub(crate) from_lists: u64,
}

impl FoundRanges {
    /// Those of no units.
    pub fn none(alloc: Global) -> FoundRanges
        ensures ranges { result.ranges.items ≡ [] }
        ensures lists { (ss : List Section) → AreRead ss result }
    {
        FoundRanges {
            ranges: Vec::new(alloc),
            lists: BTreeSet::new(alloc),
            from_lists: 0,
        }
    }

    /// The ranges, in section order of their units.
    pub fn ranges(&self) -> &[UnitRange]
        ensures { result.now ≡ self.now.ranges.items }
    {
        self.ranges.as_slice()
    }

    // Whether a list was read.
    pub(crate) fn has(&self, list: RangeList) -> bool
        ensures { IsTrue result → Contains self.now.lists.keys list }
    {
        self.lists.contains(&list)
    }

    // Takes in that a list gave so many ranges, where the sections of lists have so many bytes. Wants memory where lists gave too
    // many.
    pub(crate) fn count(&mut self, ranges: u64, bytes: u64) -> Result<(), NoMemory>
        ensures ranges { self.new.ranges ≡ self.old.ranges }
        ensures lists { self.new.lists ≡ self.old.lists }
    {
        self.from_lists = self.from_lists.saturating_add(ranges);
        if self.from_lists > bytes.saturating_mul(RANGES).saturating_add(RANGES_BESIDE) {
            return Err(NoMemory);
        }
        Ok(())
    }

    // Remembers that a list was read.
    pub(crate) fn note(&mut self, list: RangeList) -> Result<(), NoMemory>
        ensures ranges { OnOk result (self.new.ranges ≡ self.old.ranges) }
        ensures lists { OnOk result ((other : RangeList) → Contains self.new.lists.keys other → (list ≡ other) ⊎ Contains self.old.lists.keys other) }
    {
        self.lists.insert(list)?;
        Ok(())
    }

    // Remembers that these lists were read.
    pub(crate) fn note_all(&mut self, lists: &[RangeList]) -> Result<(), NoMemory>
        ensures ranges { OnOk result (self.new.ranges ≡ self.old.ranges) }
        ensures lists { OnOk result ((other : RangeList) → Contains self.new.lists.keys other → Contains lists.now other ⊎ Contains self.old.lists.keys other) }
    {
        for list in lists {
            self.note(*list)?;
        }
        Ok(())
    }
}
