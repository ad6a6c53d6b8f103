//! The header of one unit (DWARF 5, section 7.5.1; DWARF 4, section 7.5.1 for versions 2 to 4).

ghost use Rattle.std.specs.Prelude.{◌≡◌, ◌+◌, ◌^◌, ◌<◌, ◌≤◌, length, IfOk, OnOk};
ghost use Rattle.ix_base.specs.Moves.{Reads, MovesOn};
ghost use Rattle.index_model.specs.Gives.{GivesAlways};
ghost use Rattle.index_model.specs.Units.{is_version, sort_numbered, fields_4, fields_5, ending, head, next_unit};
ghost use Rattle.file_image.specs.Heads.{fields_of, ending_of, head_of};
ghost use Rattle.file_image.specs.Inside.{Spans};

use index_model::{Part, Unit, UnitSort};
use ix_base::{Cursor, Fault, MAX_UNITS, code};

const COMPILE: u8 = 1;

const TYPE: u8 = 2;

const PARTIAL: u8 = 3;

const SKELETON: u8 = 4;

const ADDRESS_BYTES: u8 = 8;

/// The sort of a unit, and where its abbreviations begin.
#[derive(Clone, Copy)]
struct Fields {
    sort: UnitSort,
    abbrev: u64,
}

/// What only a type unit has; 0 in others.
#[derive(Clone, Copy)]
struct Ending {
    signature: u64,
    type_offset: u64,
}

/// What stands in a header behind the initial length.
#[derive(Clone, Copy)]
struct UnitHeaderRest {
    version: u16,
    fields: Fields,
    ending: Ending,
}

fn fault(code: u8, at: u64) -> Fault
    ensures { result ≡ record { code = code; at = at } }
{
    Fault { code, at }
}

// The sort of the unit with this unit type, 1 to 4 (DWARF 5, section 7.5.1, table 7.2).
fn sort_of_type(unit_type: u8) -> UnitSort
    ensures { result ≡ sort_numbered unit_type }
{
    match unit_type {
        COMPILE => UnitSort::Compile,
        TYPE => UnitSort::TypeUnit,
        PARTIAL => UnitSort::Partial,
        _ => UnitSort::Skeleton,
    }
}

// Unit type, address size and abbreviation offset, as version 5 has them.
#[tactic(auto, unfolding(index_model::specs::Units::fields_5))]
fn fields_of_5(place: u64, wide: bool, own: &mut Cursor<'_>) -> Result<Fields, Fault>
    ensures value { GivesAlways (λ x. (fields_of x, own.new)) result (fields_5 place wide own.old) }
    ensures place { MovesOn own.old own.new }
{
    let unit_type = own.u8().ok_or(fault(code::UNIT_LENGTH, place))?;
    if unit_type < COMPILE || unit_type > SKELETON {
        return Err(fault(code::UNIT_TYPE, place));
    }
    let size = own.u8().ok_or(fault(code::UNIT_LENGTH, place))?;
    if size != ADDRESS_BYTES {
        return Err(fault(code::ADDRESS_SIZE, place));
    }
    let abbrev = own.offset(wide).ok_or(fault(code::UNIT_LENGTH, place))?;
    let sort = sort_of_type(unit_type);
    Ok(Fields { sort, abbrev })
}

// Abbreviation offset and address size, as versions 2 to 4 have them.
#[tactic(auto, unfolding(index_model::specs::Units::fields_4))]
fn fields_of_4(part: Part, place: u64, wide: bool, own: &mut Cursor<'_>) -> Result<Fields, Fault>
    ensures value { GivesAlways (λ x. (fields_of x, own.new)) result (fields_4 part place wide own.old) }
    ensures place { MovesOn own.old own.new }
{
    let abbrev = own.offset(wide).ok_or(fault(code::UNIT_LENGTH, place))?;
    let size = own.u8().ok_or(fault(code::UNIT_LENGTH, place))?;
    if size != ADDRESS_BYTES {
        return Err(fault(code::ADDRESS_SIZE, place));
    }
    let sort = match part {
        Part::Info => UnitSort::Compile,
        Part::Types => UnitSort::TypeUnit,
    };
    Ok(Fields { sort, abbrev })
}

// What a header has at its end: a type unit its signature and its type's place, a skeleton unit its id.
#[tactic(auto, unfolding(index_model::specs::Units::ending))]
fn ending_of_sort(sort: UnitSort, wide: bool, own: &mut Cursor<'_>) -> Option<Ending>
    ensures value { Reads ending_of (ending sort wide) own.old own.new result }
    ensures place { MovesOn own.old own.new }
{
    let mut found = Ending {
        signature: 0,
        type_offset: 0,
    };
    match sort {
        UnitSort::TypeUnit => {
            found.signature = own.u64()?;
            found.type_offset = own.offset(wide)?;
        }
        UnitSort::Skeleton => {
            let _id = own.u64()?;
        }
        UnitSort::Compile | UnitSort::Partial => {}
    }
    Some(found)
}

// Whether a unit of the section may have this version.
fn is_known(part: Part, version: u16) -> bool
    ensures { result ≡ is_version part version }
{
    match part {
        Part::Info => 2 <= version && version <= 5,
        Part::Types => version == 4,
    }
}

// The header behind the initial length, in the unit's own bytes.
#[tactic(auto, unfolding(index_model::specs::Units::head))]
fn head_behind_length(
    part: Part,
    place: u64,
    wide: bool,
    own: &mut Cursor<'_>,
) -> Result<UnitHeaderRest, Fault>
    ensures value { GivesAlways (λ x. (head_of x, own.new)) result (head part place wide own.old) }
    ensures place { MovesOn own.old own.new }
{
    let version = own.u16().ok_or(fault(code::UNIT_LENGTH, place))?;
    if !is_known(part, version) {
        return Err(fault(code::UNIT_VERSION, place));
    }
    let fields = if version == 5 {
        fields_of_5(place, wide, own)?
    } else {
        fields_of_4(part, place, wide, own)?
    };
    let ending = ending_of_sort(fields.sort, wide, own).ok_or(fault(code::UNIT_LENGTH, place))?;
    Ok(UnitHeaderRest {
        version,
        fields,
        ending,
    })
}

/// The unit at the front, with its number, in a section whose first byte has the joint offset `base`.
#[tactic(auto, unfolding(index_model::specs::Units::next_unit))]
pub(crate) fn read_unit(
    part: Part,
    base: u64,
    number: usize,
    cursor: &mut Cursor<'_>,
) -> Result<Unit, Fault>
    requires fits { base + (cursor.old.at + length cursor.old.rest) < 2 ^ 63 }
    ensures value { GivesAlways (λ u. (u, cursor.new)) result (next_unit part base number cursor.old) }
    ensures place { MovesOn cursor.old cursor.new }
    ensures numbered { OnOk result (number < MAX_UNITS) }
    ensures spans { IfOk result (λ u. Spans part base cursor.old.at cursor.new.at u) }
{
    let at = cursor.at() as u64;
    let place = base + at;
    let initial = cursor
        .initial_length()
        .ok_or(fault(code::UNIT_LENGTH, place))?;
    let mut own = cursor
        .part(initial.length)
        .ok_or(fault(code::UNIT_LENGTH, place))?;
    let head = head_behind_length(part, place, initial.wide, &mut own)?;
    if number >= MAX_UNITS as usize {
        return Err(fault(code::TOO_MANY_UNITS, place));
    }
    Ok(Unit {
        start: place,
        part,
        length: cursor.at() as u64 - at,
        version: head.version,
        wide: initial.wide,
        sort: head.fields.sort,
        abbrev: head.fields.abbrev,
        body: own.at() as u64 - at,
        signature: head.ending.signature,
        type_offset: head.ending.type_offset,
    })
}
