//! What look-ups need of an index, before the paths of its names are tested.

ghost use Rattle.std.specs.Prelude.{◌≡◌, ◌<◌, ◌^◌, List, ℕ, length, IfErr, IfOk, Err};
ghost use Rattle.index_model.specs.GdbIndexRead.{gdb_index};
ghost use Rattle.gdbindex_read.specs.Areas.{AreAreasOf, HasShortcut};
ghost use Rattle.gdbindex_read.specs.Index.{ArePartsOf};

use crate::addresses::AddressArea;
use crate::areas::Areas;
use crate::shortcut::Shortcut;
use crate::symbols::SymbolTable;
use ix_base::Fault;
use std::alloc::Global;

/// The address area, the symbol table and main.
#[derive(Drop)]
pub(crate) struct Parts<'a> {
    pub addresses: AddressArea<'a>,
    pub symbols: SymbolTable<'a>,
    pub main: Option<Shortcut<'a>>,
}

impl<'a> Parts<'a> {
    /// The parts of the index in these bytes, or its first fault where that isn't one of paths.
    pub fn open(alloc: Global, bytes: &'a [u8]) -> Result<Parts<'a>, Fault>
        ensures parts { IfOk result (ArePartsOf bytes.now) }
        ensures fault { IfErr result (λ fault. gdb_index bytes.now ≡ Err fault) }
    {
        let areas = Areas::open(bytes)?;
        areas.check_units()?;
        Parts::of(alloc, &areas)
    }

    // The parts of an index with these areas, whose lists of units are whole.
    fn of(alloc: Global, areas: &Areas<'a>) -> Result<Parts<'a>, Fault>
        requires small { length areas.now.table.bytes.now < 2 ^ 32 }
        requires shortcut { HasShortcut areas.now }
        ensures parts { (section : List ℕ) → AreAreasOf section areas.now → IfOk result (ArePartsOf section) }
        ensures fault { (section : List ℕ) → AreAreasOf section areas.now → IfErr result (λ fault. gdb_index section ≡ Err fault) }
    {
        let addresses = AddressArea::open(areas)?;
        let symbols = SymbolTable::open(alloc, areas)?;
        let main = Shortcut::open(areas)?;
        Ok(Parts {
            addresses,
            symbols,
            main,
        })
    }
}
