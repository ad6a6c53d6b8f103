//! Tables of abbreviations that serve more than one unit (DWARF 5, section 7.5.3).

ghost use Rattle.std.specs.Prelude.{◌≡◌, IfOk, IsSome, Some};
ghost use Rattle.std.specs.Option.{ForSome};
ghost use Rattle.index_model.specs.Abbreviations.{table};
ghost use Rattle.entry_scan.specs.TablesAtOffsets.{IsAtOffset};

use entry_scan::AbbrevTable;
use index_model::Unit;
use indexmap::IndexMap;
use ix_base::NoMemory;
use std::alloc::Global;
use std::marker::Model;

// How many times the bytes of `.debug_abbrev` may be the bytes of the tables that are kept at once: tables may overlap.
const OVERLAP: u64 = 4;

/// The tables of `.debug_abbrev` that were read, as long as there is room for them. Contracts see the bytes of the section.
#[derive(Drop)]
pub(crate) struct ReadTables<'f> {
    section: &'f [u8],
    // Those that are kept, by their offsets.
    kept: IndexMap<u64, AbbrevTable>,
    // How many bytes those that are kept take at least in `.debug_abbrev`, and how many they may take.
    bytes: u64,
    most: u64,
}

impl<'f> Model for ReadTables<'f> {
    ghost use Rattle.std.specs.Prelude.{List, ℕ};
    ghost use Rattle.shard_build.specs.Runs.{AreAtOffsets};

    ghost Value = { List ℕ };

    ghost view = { λ e. e.section.now };

    ghost invariant = { λ e. AreAtOffsets e.section.now e.kept };
}

impl<'f> ReadTables<'f> {
    /// No tables yet of a `.debug_abbrev` of these bytes.
    pub fn new(alloc: Global, section: &'f [u8]) -> ReadTables<'f>
        ensures { result ≡ section.now }
    {
        ReadTables {
            section,
            kept: IndexMap::new(alloc),
            bytes: 0,
            most: (section.len() as u64).saturating_mul(OVERLAP),
        }
    }

    /// The table of a unit, where it isn't damaged: a kept one, which is kept no longer, or else it is read.
    pub fn take(&mut self, alloc: Global, unit: &Unit) -> Result<AbbrevTable, NoMemory>
        requires { IsSome (table self.old unit.now.«abbrev») }
        ensures value { IfOk result (λ t. table self.old unit.now.«abbrev» ≡ Some t.abbrevs) }
        ensures place { IfOk result (IsAtOffset self.old) }
        ensures same { self.new ≡ self.old }
    {
        let kept = self.taken(unit.abbrev);
        AbbrevTable::of_sound(alloc, self.section, unit, kept)
    }

    // Takes out the table at an offset, if it is kept.
    fn taken(&mut self, offset: u64) -> Option<AbbrevTable>
        ensures place { ForSome result (IsAtOffset self.old) }
        ensures same { self.new ≡ self.old }
    {
        let table = self.kept.swap_remove(&offset)?;
        self.bytes = self.bytes.saturating_sub(table.abbrevs.least_bytes());
        Some(table)
    }

    /// Keeps a table of the section, where there is room for it.
    pub fn put(&mut self, table: AbbrevTable) -> Result<(), NoMemory>
        requires { IsAtOffset self.old table }
        ensures { self.new ≡ self.old }
    {
        let bytes = self.bytes.saturating_add(table.abbrevs.least_bytes());
        if bytes > self.most {
            return Ok(());
        }
        self.bytes = bytes;
        self.kept.insert(table.offset, table)?;
        Ok(())
    }
}
