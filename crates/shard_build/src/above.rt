//! The lexical parents of the entries of a unit, where each entry is passed (DWARF 5, section 2.3).

ghost use Rattle.std.specs.Prelude.{◌≡◌, ◌++◌, ◌∷◌, [], List, IfOk, length};
ghost use Rattle.index_model.specs.Walk.{Item as EntryOf};
ghost use Rattle.shard_build.specs.Again.{AreLast, parent_behind};

use entry_scan::Item;
use ix_base::{MAX_DEPTH, NoMemory};
use std::alloc::Global;

/// The joint offset of the last entry of each depth among those that were passed.
#[derive(Drop)]
pub(crate) struct Above {
    offsets: Vec<Option<u64>>,
}

impl Above {
    /// No entry was passed yet.
    pub fn new(alloc: Global) -> Result<Above, NoMemory>
        ensures { IfOk result (λ a. AreLast [] a.offsets.items) }
    {
        Ok(Above {
            offsets: vec![in alloc; None; MAX_DEPTH as usize + 1]?,
        })
    }

    /// The joint offset of the lexical parent of an entry behind those that were passed: the last whose depth is one less.
    pub fn parent(&self, entry: &Item<'_>) -> Option<u64>
        requires { length self.now.offsets.items ≡ 1025 }
        ensures { (passed : List EntryOf) → AreLast passed self.now.offsets.items → result ≡ parent_behind passed entry.now }
    {
        let above = entry.depth().checked_sub(1)?;
        self.offsets[above as usize]
    }

    /// Passes an entry.
    pub fn pass(&mut self, entry: &Item<'_>)
        requires { length self.old.offsets.items ≡ 1025 }
        ensures { (passed : List EntryOf) → AreLast passed self.old.offsets.items → AreLast (passed ++ entry.now ∷ []) self.new.offsets.items }
    {
        self.offsets[entry.depth() as usize] = Some(entry.offset());
    }
}
