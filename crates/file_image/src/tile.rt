//! The units that tile a section.

ghost use Rattle.std.specs.Prelude.{◌≡◌, ◌+◌, ◌^◌, ◌<◌, ◌≤◌, ℕ, length, IfOk, OnOk};
ghost use Rattle.ix_base.specs.Reading.{input};
ghost use Rattle.index_model.specs.Gives.{Gives};
ghost use Rattle.index_model.specs.Tiling.{tiles};
ghost use Rattle.index_model.specs.Units.{next_unit, units_of};
ghost use Rattle.file_image.specs.Front.{with_front};
ghost use Rattle.file_image.specs.Inside.{base_of, size_of, AreInside, LieInSections};

use crate::sections::Sections;
use crate::unit_header::read_unit;
use index_model::{Part, Unit};
use ix_base::{Cursor, MAX_UNITS, Stop};
use std::alloc::Global;

/// The units of `.debug_info` and then those of `.debug_types`, in the order of their places (DWARF 5, section 7.5.1;
/// DWARF 4, section 7.5.1 for versions 2 to 4).
///
/// Stops at the first fault of a header: an initial length that is cut or reserved, a unit or a header that leaves its
/// bytes, a version that isn't known in the section, an unknown unit type, addresses of another size than 8 bytes, or
/// more units than `MAX_UNITS`. The place of a fault is the joint offset of the unit.
pub fn units(alloc: Global, sections: &Sections<'_>) -> Result<Vec<Unit>, Stop>
    ensures value { Gives (λ v. v.items) result (units_of sections.now) }
    ensures few { IfOk result (λ v. length v.items ≤ MAX_UNITS) }
    ensures inside { IfOk result (λ v. LieInSections sections.now v.items) }
{
    let info = sections.debug_info();
    let types = sections.get(b".debug_types");
    let mut units = Vec::new(alloc);
    add_units(&mut units, Part::Info, 0, info)?;
    add_units(&mut units, Part::Types, info.len() as u64, types)?;
    Ok(units)
}

// Adds the units that tile the bytes of a section whose first byte has the joint offset `base`.
fn add_units(units: &mut Vec<Unit>, part: Part, base: u64, bytes: &[u8]) -> Result<(), Stop>
    requires fits { base + length bytes.now < 2 ^ 63 }
    ensures value { Gives (λ _. units.new.items) result (with_front units.old.items (tiles (next_unit part base) (length units.old.items) (input bytes.now 0))) }
    ensures few { length units.old.items ≤ MAX_UNITS → length units.new.items ≤ MAX_UNITS }
    ensures inside { (info types : ℕ) → base ≡ base_of part info → length bytes.now ≡ size_of part info types → AreInside info types units.old.items → AreInside info types units.new.items }
{
    let mut cursor = Cursor::new(bytes, 0);
    while cursor.at() < bytes.len() {
        let unit = read_unit(part, base, units.len(), &mut cursor)?;
        units.push(unit)?;
    }
    Ok(())
}
