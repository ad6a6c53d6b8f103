//! The items of a unit.

ghost use Rattle.std.specs.Prelude.{◌≡◌, ◌<◌, codes, length, IfOk};
ghost use Rattle.std.specs.List.{AllZip};
ghost use Rattle.index_model.specs.Sections.{section_bytes};
ghost use Rattle.shard_build.specs.Again.{walk_by, IsSound};
ghost use Rattle.gdb_entries.specs.Files.{HasProgram};
ghost use Rattle.gdb_items.specs.Items.{kept_of, AreItemsOf, IsItemOf};
ghost use Rattle.gdb_items.specs.Units.{IsWithin};

use crate::item::UnitItem;
use crate::tables::ReadTables;
use crate::unit_with_table::UnitWithTable;
use crate::which::Which;
use entry_scan::{Abbrevs, Walk};
use file_image::Image;
use ix_base::NoMemory;
use shard_build::UnitInFile;
use std::alloc::Global;

/// The items of a unit that are kept, in section order, where the file has no fault. Units are counted from 0 over both sections in
/// section order. What isn't kept is passed: of its attributes none is read but the flag of a declaration. The unit's table of
/// abbreviations is taken from those that were read, if it is kept there.
pub(crate) fn unit_items<'f>(
    alloc: Global,
    image: &Image<'f>,
    unit: u32,
    which: Which,
    tables: &mut ReadTables<'_>,
) -> Result<Vec<UnitItem<'f>>, NoMemory>
    requires unit { unit < length image.now.units }
    requires sound { HasProgram image.now.file }
    requires tables { tables.old ≡ section_bytes image.now.sections (codes ".debug_abbrev") }
    ensures items { IfOk result (λ items. AreItemsOf image.now.file unit which items.items) }
    ensures same { tables.new ≡ tables.old }
{
    let unit = UnitWithTable::of(alloc, image, unit, tables)?;
    let items = items_by(alloc, &unit.home, &unit.table.abbrevs, which)?;
    tables.put(unit.table)?;
    Ok(items)
}

// The items of a unit without a fault, by its abbreviations.
fn items_by<'f>(
    alloc: Global,
    home: &UnitInFile<'_, 'f>,
    abbrevs: &Abbrevs,
    which: Which,
) -> Result<Vec<UnitItem<'f>>, NoMemory>
    requires within { IsWithin home.now }
    requires sound { IsSound home.now abbrevs.now }
    ensures { IfOk result (λ items. AllZip (IsItemOf home.now.sections.now) items.items (kept_of which (walk_by home.now abbrevs.now))) }
{
    let base = home.str_offsets_base(abbrevs);
    let mut items = Vec::new(alloc);
    let mut walk = Walk::new(home.bytes, &home.unit, abbrevs);
    while let Ok(Some(entry)) = walk.next() {
        if which.keeps(&entry) {
            items.push(UnitItem::of(home, base, &entry))?;
        }
    }
    Ok(items)
}
