//! Units that are read again as a whole.
//!
//! A reference to an entry without a node costs what stands before the entry in the span of its parent. Where many references
//! name such entries of one unit, the unit is read once more, and the nodes of all its entries are kept from then on.

ghost use Rattle.std.specs.Prelude.{◌≡◌, List, ℕ, IfOk, IfSome, Ok};
ghost use Rattle.std.specs.Option.{ForSome};
ghost use Rattle.index_model.specs.Faults.{program_of};
ghost use Rattle.index_model.specs.Program.{Program};
ghost use Rattle.shard_build.specs.Again.{AreOfUnit, AreOfUnits};
ghost use Rattle.shard_build.specs.Found.{IsFound};

use crate::found::{NodeOrSpan, node_at, unit_at};
use file_image::Image;
use index_model::Nodes;
use indexmap::IndexMap;
use ix_base::NoMemory;
use std::alloc::Global;

// Into how many parts of a unit's length the reading of one entry counts at least, since the unit's root is read for it too.
const PARTS: u64 = 16;

/// The nodes of all entries of some units, by the numbers of the units.
#[derive(Drop)]
pub(crate) struct UnitsAgain<'f> {
    nodes: IndexMap<u32, Nodes<'f>>,
    // How many bytes of a unit were read for single entries.
    read: IndexMap<u32, u64>,
}

impl<'f> UnitsAgain<'f> {
    /// No units.
    pub fn new(alloc: Global) -> UnitsAgain<'f>
        ensures { (file : List ℕ) → AreOfUnits file result.nodes }
    {
        UnitsAgain {
            nodes: IndexMap::new(alloc),
            read: IndexMap::new(alloc),
        }
    }

    /// What these units say of an entry, if its unit is one of them.
    pub fn find(&self, image: &Image<'f>, offset: u64) -> Option<NodeOrSpan<'f>>
        requires { AreOfUnits image.now.file self.now.nodes }
        ensures { IfSome result (λ found. (p : Program) → program_of image.now.file ≡ Ok p → IsFound p offset found) }
    {
        let unit = unit_at(image, offset)?;
        let nodes = self.nodes.get(&unit)?;
        match node_at(nodes, offset) {
            Some(node) => Some(NodeOrSpan::Kept(node)),
            None => Some(NodeOrSpan::Nowhere),
        }
    }

    /// Takes in that so many bytes of a unit are to be read for one entry. Whether all such bytes together are more than the
    /// unit has.
    pub fn is_too_much(&mut self, unit: u32, bytes: u64, length: u64) -> Result<bool, NoMemory>
        ensures { self.new.nodes ≡ self.old.nodes }
    {
        let before = self.read.get(&unit).copied().unwrap_or(0);
        let all = before.saturating_add(bytes.max(length / PARTS));
        self.read.insert(unit, all)?;
        Ok(all > length)
    }

    /// These units, if there are any, and one more.
    pub fn with(
        alloc: Global,
        units: Option<UnitsAgain<'f>>,
        unit: u32,
        nodes: Nodes<'f>,
    ) -> Result<UnitsAgain<'f>, NoMemory>
        ensures { (file : List ℕ) → ForSome units.entry (λ u. AreOfUnits file u.nodes) → AreOfUnit file unit nodes.entry → IfOk result (λ u. AreOfUnits file u.nodes) }
    {
        let mut all = match units {
            Some(units) => units,
            None => UnitsAgain::new(alloc),
        };
        all.nodes.insert(unit, nodes)?;
        Ok(all)
    }
}
