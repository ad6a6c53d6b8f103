//! What the units of a file import (DWARF 5, section 3.2.5).

ghost use Rattle.std.specs.Prelude.{◌≡◌, ◌<◌, ◌+◌, ◌^◌, ◌++◌, codes, length, IfOk, OnOk, option_to_list};
ghost use Rattle.index_model.specs.Sections.{section_bytes};
ghost use Rattle.index_model.specs.ShardParts.{imports_in};
ghost use Rattle.shard_build.specs.Again.{walk_by, IsSound};
ghost use Rattle.shard_build.specs.Kept.{imports_by};
ghost use Rattle.gdb_entries.specs.Files.{ForProgram, HasProgram};
ghost use Rattle.gdb_units.specs.Given.{AreImportsOf};
ghost use Rattle.gdb_items.specs.Units.{ForUnitOf, IsWithin};

use crate::tables::ReadTables;
use crate::unit_with_table::UnitWithTable;
use dwarf_codes::attribute::DW_AT_import;
use dwarf_codes::tag::DW_TAG_imported_unit;
use entry_scan::{Abbrevs, Item, Walk};
use file_image::Image;
use index_model::Import;
use ix_base::NoMemory;
use shard_build::{UnitInFile, reference};
use std::alloc::Global;

/// The imports of all units of a file without a fault, in section order. Each entry is read.
pub(crate) fn imports(
    alloc: Global,
    image: &Image<'_>,
    tables: &mut ReadTables<'_>,
) -> Result<Vec<Import>, NoMemory>
    requires sound { HasProgram image.now.file }
    requires tables { tables.old ≡ section_bytes image.now.sections (codes ".debug_abbrev") }
    ensures imports { ForProgram image.now.file (λ p. IfOk result (λ v. AreImportsOf p v.items)) }
    ensures same { tables.new ≡ tables.old }
{
    let mut imports = Vec::new(alloc);
    for number in 0..image.units().len() as u32 {
        add_of_unit(alloc, image, number, tables, &mut imports)?;
    }
    Ok(imports)
}

// Adds the imports of the unit with this number.
fn add_of_unit(
    alloc: Global,
    image: &Image<'_>,
    number: u32,
    tables: &mut ReadTables<'_>,
    imports: &mut Vec<Import>,
) -> Result<(), NoMemory>
    requires number { number < length image.now.units }
    requires sound { HasProgram image.now.file }
    requires tables { tables.old ≡ section_bytes image.now.sections (codes ".debug_abbrev") }
    ensures added { OnOk result (ForUnitOf image.now number (λ p w. imports.new.items ≡ imports.old.items ++ imports_in p.sections w)) }
    ensures same { tables.new ≡ tables.old }
{
    let unit = UnitWithTable::of(alloc, image, number, tables)?;
    add_all(imports, &unit.home, &unit.table.abbrevs)?;
    tables.put(unit.table)?;
    Ok(())
}

// Adds the imports of a unit without a fault.
fn add_all(
    imports: &mut Vec<Import>,
    home: &UnitInFile<'_, '_>,
    abbrevs: &Abbrevs,
) -> Result<(), NoMemory>
    requires within { IsWithin home.now }
    requires sound { IsSound home.now abbrevs.now }
    ensures { OnOk result (imports.new.items ≡ imports.old.items ++ imports_in home.now.sections.now (walk_by home.now abbrevs.now)) }
{
    let mut walk = Walk::new(home.bytes, &home.unit, abbrevs);
    while let Ok(Some(entry)) = walk.next() {
        add(imports, home, &entry)?;
    }
    Ok(())
}

// Adds the import of an entry, if it has one.
fn add(
    imports: &mut Vec<Import>,
    home: &UnitInFile<'_, '_>,
    entry: &Item<'_>,
) -> Result<(), NoMemory>
    requires { home.now.unit.start + home.now.unit.length < 2 ^ 63 }
    ensures { OnOk result (imports.new.items ≡ imports.old.items ++ imports_by home.now.sections.now (home.now.number, home.now.unit) entry.now) }
{
    if let Some(import) = import_of(home, entry) {
        imports.push(import)?;
    }
    Ok(())
}

// The import of an entry, if it is an imported unit that names a place.
fn import_of(home: &UnitInFile<'_, '_>, entry: &Item<'_>) -> Option<Import>
    requires { home.now.unit.start + home.now.unit.length < 2 ^ 63 }
    ensures { option_to_list result ≡ imports_by home.now.sections.now (home.now.number, home.now.unit) entry.now }
{
    if entry.tag() != DW_TAG_imported_unit {
        return None;
    }
    match reference(entry, DW_AT_import) {
        None => None,
        Some(reference) => match home.target(reference) {
            None => None,
            Some(target) => Some(Import {
                unit: home.number,
                target,
            }),
        },
    }
}
