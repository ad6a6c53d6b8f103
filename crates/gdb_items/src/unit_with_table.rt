//! A unit of a file, with its abbreviations.

ghost use Rattle.std.specs.Prelude.{◌≡◌, ◌<◌, codes, length, IfOk};
ghost use Rattle.index_model.specs.Sections.{section_bytes};
ghost use Rattle.gdb_entries.specs.Files.{HasProgram};
ghost use Rattle.gdb_items.specs.Units.{IsUnitOf};

use crate::tables::ReadTables;
use entry_scan::AbbrevTable;
use file_image::Image;
use ix_base::NoMemory;
use shard_build::UnitInFile;
use std::alloc::Global;

/// A unit, and the table of its abbreviations.
#[derive(Drop)]
pub(crate) struct UnitWithTable<'s, 'f> {
    pub home: UnitInFile<'s, 'f>,
    pub table: AbbrevTable,
}

impl<'s, 'f> UnitWithTable<'s, 'f> {
    /// The unit with this number of a file without a fault. Its table is taken from those that were read, if it is kept there.
    pub fn of(
        alloc: Global,
        image: &'s Image<'f>,
        number: u32,
        tables: &mut ReadTables<'_>,
    ) -> Result<UnitWithTable<'s, 'f>, NoMemory>
        requires number { number < length image.now.units }
        requires sound { HasProgram image.now.file }
        requires tables { tables.old ≡ section_bytes image.now.sections (codes ".debug_abbrev") }
        ensures unit { IfOk result (IsUnitOf image.now number) }
        ensures same { tables.new ≡ tables.old }
    {
        let home = UnitInFile::of(image, number);
        let table = tables.take(alloc, &home.unit)?;
        Ok(UnitWithTable { home, table })
    }
}
