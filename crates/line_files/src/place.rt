//! Where the line table of a unit begins (DWARF 5, section 3.1.1; DWARF 4, section 3.1.1 and section 7.5.4 for versions 2 and 3).

ghost use Rattle.std.specs.Prelude.{◌≡◌, ◌+◌, ◌<◌, ◌≤◌, ◌^◌, Some, codes, length, option_and_then, option_map, slice_get, Ok};
ghost use Rattle.std.specs.Option.{ForSome};
ghost use Rattle.index_model.specs.declared.unit.Unit.{Unit as UnitHeader};
ghost use Rattle.index_model.specs.Attributes.{as_unsigned};
ghost use Rattle.index_model.specs.FormSeen.{seen};
ghost use Rattle.index_model.specs.Forms.{Signed};
ghost use Rattle.index_model.specs.Gives.{Gives};
ghost use Rattle.index_model.specs.Sections.{section_bytes};
ghost use Rattle.file_image.specs.Images.{image_of};
ghost use Rattle.reach_model.specs.LineTables.{as_line_place};
ghost use Rattle.entry_scan.specs.TablesAtOffsets.{IsAtOffset};
ghost use Rattle.line_files.specs.Places.{place_by, place_of};

use dwarf_codes::attribute::DW_AT_stmt_list;
use entry_scan::{AbbrevTable, Abbrevs, Walk};
use file_image::Image;
use index_model::{Unit, Value};
use ix_base::Stop;
use std::alloc::Global;

// The number, if it isn't negative.
fn not_negative(number: i64) -> Option<u64>
    ensures { result ≡ as_unsigned (Signed number) }
{
    if number < 0 {
        None
    } else {
        Some(number as u64)
    }
}

// The place that a value is, in a unit of this version: a section offset, and up to version 3 also an unsigned constant.
fn as_place(version: u16, value: Option<Value<'_>>) -> Option<u64>
    ensures { result ≡ option_and_then (as_line_place version) (option_map seen value.entry) }
{
    match value {
        Some(Value::Offset(place)) => Some(place),
        Some(Value::Unsigned(place)) if version <= 3 => Some(place),
        Some(Value::Signed(place)) if version <= 3 => not_negative(place),
        _ => None,
    }
}

// The place that the root of a unit says, by the unit's bytes and its abbreviations.
fn place_in(bytes: &[u8], unit: &Unit, abbrevs: &Abbrevs) -> Option<u64>
    requires header { unit.now.body ≤ length bytes.now }
    requires small { unit.now.start + length bytes.now < 2 ^ 63 }
    ensures { result ≡ place_by unit.now abbrevs.now bytes.now }
{
    match Walk::new(bytes, unit, abbrevs).next() {
        Ok(Some(root)) => as_place(unit.version, root.value(DW_AT_stmt_list)),
        _ => None,
    }
}

/// The unit with this number.
pub(crate) fn unit_at(image: &Image<'_>, number: usize) -> Unit
    requires { number < length image.now.units }
    ensures value { slice_get image.now.units number ≡ Some result }
    ensures of_file { image_of image.now.file ≡ Ok image.now }
{
    image.units()[number]
}

/// Where the line table of the unit with this number begins, None where its root says no place. The unit's table of abbreviations
/// is then the one at hand.
pub(crate) fn line_place(
    alloc: Global,
    image: &Image<'_>,
    number: usize,
    at_hand: &mut Option<AbbrevTable>,
) -> Result<Option<u64>, Stop>
    requires within { number < length image.now.units }
    requires hand { ForSome at_hand.old (IsAtOffset (section_bytes image.now.sections (codes ".debug_abbrev"))) }
    ensures value { (u : UnitHeader) → slice_get image.now.units number ≡ Some u → Gives (λ place. place) result (place_of image.now.sections (number, u)) }
    ensures hand { ForSome at_hand.new (IsAtOffset (section_bytes image.now.sections (codes ".debug_abbrev"))) }
{
    let unit = unit_at(image, number);
    let section = image.sections().get(b".debug_abbrev");
    let table = AbbrevTable::of(alloc, section, &unit, at_hand.take())?;
    let abbrevs = &at_hand.insert(table).abbrevs;
    Ok(place_in(image.unit_bytes(number), &unit, abbrevs))
}
