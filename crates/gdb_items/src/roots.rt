//! The roots of all units of a file.

ghost use Rattle.std.specs.Prelude.{◌≡◌, codes, IfOk};
ghost use Rattle.std.specs.List.{list_any};
ghost use Rattle.index_model.specs.Sections.{section_bytes};
ghost use Rattle.gdb_entries.specs.Files.{ForProgram, HasProgram};
ghost use Rattle.gdb_items.specs.Roots.{AreRootsOf};

use crate::root::RootRead;
use crate::tables::ReadTables;
use file_image::Image;
use gdb_entries::LanguageClass;
use gdb_units::UnitRoot;
use ix_base::NoMemory;
use std::alloc::Global;

/// What is read of the roots of all units, in section order.
#[derive(Drop)]
pub(crate) struct Roots {
    pub units: Vec<UnitRoot>,
    /// The class of each unit's own language.
    pub classes: Vec<LanguageClass>,
}

impl Roots {
    /// Those of a file without a fault. Of each unit its first entry is read.
    pub fn of(
        alloc: Global,
        image: &Image<'_>,
        tables: &mut ReadTables<'_>,
    ) -> Result<Roots, NoMemory>
        requires sound { HasProgram image.now.file }
        requires tables { tables.old ≡ section_bytes image.now.sections (codes ".debug_abbrev") }
        ensures roots { ForProgram image.now.file (λ p. IfOk result (AreRootsOf p p.walks)) }
        ensures same { tables.new ≡ tables.old }
    {
        let mut units = Vec::new(alloc);
        let mut classes = Vec::new(alloc);
        for number in 0..image.units().len() as u32 {
            let root = RootRead::of_unit(alloc, image, number, tables)?;
            units.push(root.unit)?;
            classes.push(root.class)?;
        }
        Ok(Roots { units, classes })
    }
}

/// Whether one of the units is partial.
pub(crate) fn is_any_partial(units: &[UnitRoot]) -> bool
    ensures { result ≡ list_any (λ u. u.partial) units.now }
{
    units.iter().any(|unit| unit.partial)
}
