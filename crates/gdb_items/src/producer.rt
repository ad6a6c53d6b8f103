//! The producer that a root names (DWARF 5, section 3.1.1).

ghost use Rattle.std.specs.Prelude.{◌≡◌, option_map};
ghost use Rattle.gdb_items.specs.Roots.{producer_by};

use crate::codes::DW_AT_producer;
use entry_scan::Item;
use file_image::text;
use shard_build::UnitInFile;

/// The producer of a root whose unit's part of `.debug_str_offsets` begins at the base. An empty one is none, and so is one that can't be
/// read.
pub(crate) fn producer<'f>(
    home: &UnitInFile<'_, 'f>,
    base: Option<u64>,
    root: &Item<'f>,
) -> Option<&'f [u8]>
    ensures { option_map (λ b. b.now) result ≡ producer_by home.now.sections.now base home.now.unit.wide root.now }
{
    let value = root.value(DW_AT_producer)?;
    match text(home.sections, base, home.unit.wide, &value) {
        Ok(producer) => producer,
        Err(_) => None,
    }
}
