//! What is read of the root of a unit.

ghost use Rattle.std.specs.Prelude.{◌≡◌, ◌<◌, codes, length, IfOk, Some, None};
ghost use Rattle.index_model.specs.Program.{Program};
ghost use Rattle.index_model.specs.Sections.{section_bytes};
ghost use Rattle.shard_build.specs.Again.{walk_by, IsSound};
ghost use Rattle.gdb_entries.specs.declared.language.LanguageClass.TheVariants.{Other};
ghost use Rattle.gdb_entries.specs.Files.{HasProgram};
ghost use Rattle.gdb_items.specs.Roots.{class_by, facts_by, IsRootOf};
ghost use Rattle.gdb_items.specs.Units.{ForUnitOf, IsWithin};

use crate::language::language;
use crate::producer::producer;
use crate::tables::ReadTables;
use crate::unit_with_table::UnitWithTable;
use dwarf_codes::tag::DW_TAG_partial_unit;
use entry_scan::{Abbrevs, Item, Walk};
use file_image::Image;
use gdb_entries::LanguageClass;
use gdb_units::{UnitRoot, own_class};
use ix_base::NoMemory;
use shard_build::UnitInFile;
use std::alloc::Global;

/// What is read of the root of a unit.
#[derive(Clone, Copy)]
pub(crate) struct RootRead {
    pub unit: UnitRoot,
    /// The class of the unit's own language.
    pub class: LanguageClass,
}

impl RootRead {
    /// What is read of the unit with this number of a file without a fault.
    pub fn of_unit(
        alloc: Global,
        image: &Image<'_>,
        number: u32,
        tables: &mut ReadTables<'_>,
    ) -> Result<RootRead, NoMemory>
        requires number { number < length image.now.units }
        requires sound { HasProgram image.now.file }
        requires tables { tables.old ≡ section_bytes image.now.sections (codes ".debug_abbrev") }
        ensures root { IfOk result (λ r. ForUnitOf image.now number (λ p w. IsRootOf p w r)) }
        ensures same { tables.new ≡ tables.old }
    {
        let unit = UnitWithTable::of(alloc, image, number, tables)?;
        let root = RootRead::of_first(&unit.home, &unit.table.abbrevs);
        tables.put(unit.table)?;
        Ok(root)
    }

    // What is read of a unit without a fault: its first entry is its root.
    fn of_first(home: &UnitInFile<'_, '_>, abbrevs: &Abbrevs) -> RootRead
        requires within { IsWithin home.now }
        requires sound { IsSound home.now abbrevs.now }
        ensures { (p : Program) → p.sections ≡ home.now.sections.now → IsRootOf p (walk_by home.now abbrevs.now) result }
    {
        match Walk::new(home.bytes, &home.unit, abbrevs).next() {
            Ok(Some(root)) => RootRead::of(home, home.str_offsets_base(abbrevs), &root),
            _ => RootRead::none(),
        }
    }

    // What the root says whose unit's part of `.debug_str_offsets` begins at the base.
    fn of(home: &UnitInFile<'_, '_>, base: Option<u64>, root: &Item<'_>) -> RootRead
        ensures unit { result.unit ≡ facts_by (Some root.now) }
        ensures class { result.class ≡ class_by home.now.sections.now base home.now.unit.wide root.now }
    {
        RootRead {
            unit: UnitRoot {
                offset: Some(root.offset()),
                partial: root.tag() == DW_TAG_partial_unit,
            },
            class: own_class(language(root), producer(home, base, root)),
        }
    }

    // What is known of a unit without entries.
    fn none() -> RootRead
        ensures unit { result.unit ≡ facts_by None }
        ensures class { result.class ≡ Other }
    {
        RootRead {
            unit: UnitRoot {
                offset: None,
                partial: false,
            },
            class: LanguageClass::Other,
        }
    }
}
