//! Tables of abbreviations that serve more than one unit (DWARF 5, section 7.5.3).

ghost use Rattle.std.specs.Prelude.{◌≡◌, List, ℕ, IfOk, OnOk};
ghost use Rattle.std.specs.Option.{ForSome};
ghost use Rattle.entry_scan.specs.TablesAtOffsets.{IsAtOffset};
ghost use Rattle.shard_build.specs.Runs.{AreAtOffsets};

use entry_scan::AbbrevTable;
use index_model::Unit;
use indexmap::IndexMap;
use ix_base::NoMemory;
use reading_limit::ReadingLimit;
use std::alloc::Global;

// How many times the bytes of `.debug_abbrev` may be the bytes of the tables that are kept at once: tables may overlap.
const OVERLAP: u64 = 4;

// How many times the bytes of `.debug_abbrev`, and how many bytes beside, may be the bytes of the tables that a run reads. Those of
// a program that a compiler and a linker made don't overlap, so it reads each byte once.
const READINGS: u64 = 64;

const READ_BESIDE: u64 = 1 << 20;

/// The tables of a run of units. One that a later unit of the run has too is kept, so that it is read once.
#[derive(Drop)]
pub(crate) struct Tables {
    // Those that are kept, by their offsets.
    pub kept: IndexMap<u64, AbbrevTable>,
    // How many units that are still to come have their table at an offset.
    left: IndexMap<u64, u32>,
    // How many bytes those that are kept take at least in `.debug_abbrev`, and how many they may take.
    bytes: u64,
    most: u64,
    // How many bytes those that are still to be read may take.
    to_read: ReadingLimit,
}

impl Tables {
    /// No tables yet of these units, where `.debug_abbrev` has so many bytes.
    pub fn new(alloc: Global, units: &[Unit], length: usize) -> Result<Tables, NoMemory>
        ensures { IfOk result (λ t. (section : List ℕ) → AreAtOffsets section t.kept) }
    {
        let mut left = IndexMap::new(alloc);
        for unit in units {
            let count: u32 = left.get(&unit.abbrev).copied().unwrap_or(0);
            left.insert(unit.abbrev, count.saturating_add(1))?;
        }
        Ok(Tables {
            kept: IndexMap::new(alloc),
            left,
            bytes: 0,
            most: (length as u64).saturating_mul(OVERLAP),
            to_read: ReadingLimit::of(
                (length as u64)
                    .saturating_mul(READINGS)
                    .saturating_add(READ_BESIDE),
            ),
        })
    }

    /// Takes out the table at an offset, if it was kept.
    pub fn take(&mut self, offset: u64) -> Option<AbbrevTable>
        ensures taken { (section : List ℕ) → AreAtOffsets section self.old.kept → ForSome result (IsAtOffset section) }
        ensures kept { (section : List ℕ) → AreAtOffsets section self.old.kept → AreAtOffsets section self.new.kept }
    {
        let table = self.kept.swap_remove(&offset)?;
        self.bytes = self.bytes.saturating_sub(table.abbrevs.least_bytes());
        Some(table)
    }

    /// Keeps the table of a unit, if a later unit of the run has it too and there is room for it. A table that was read for the
    /// unit counts to those that the run reads.
    ///
    /// # Errors
    ///
    /// Also where the run would read too many bytes of tables that overlap.
    pub fn put(&mut self, table: AbbrevTable, read: bool) -> Result<(), NoMemory>
        ensures { OnOk result ((section : List ℕ) → AreAtOffsets section self.old.kept → IsAtOffset section table → AreAtOffsets section self.new.kept) }
    {
        let own = table.abbrevs.least_bytes();
        self.to_read
            .take(if read { own } else { 0 })
            .ok_or(NoMemory)?;
        let bytes = self.bytes.saturating_add(own);
        let needed = self.is_needed(table.offset)?;
        if !needed || bytes > self.most {
            return Ok(());
        }
        self.bytes = bytes;
        self.kept.insert(table.offset, table)?;
        Ok(())
    }

    // Takes in that one unit with its table at the offset is done. Whether there is a later one.
    fn is_needed(&mut self, offset: u64) -> Result<bool, NoMemory>
        ensures { self.new.kept ≡ self.old.kept }
    {
        let left = self.left.get(&offset).copied().unwrap_or(0);
        self.left.insert(offset, left.saturating_sub(1))?;
        Ok(left > 1)
    }
}
