//! The units that the index lists (DWARF 5, sections 6.1.1.4.2 and 6.1.1.4.3).

ghost use Rattle.std.specs.Prelude.{◌≡◌, ◌<◌, ◌≤◌, ◌^◌, ◌++◌, if◌then◌else◌, length, slice_index, All, IfOk, OnOk};
ghost use Rattle.index_model.specs.GdbIndex.{is_type_unit};
ghost use Rattle.index_model.specs.NameIndex.{unit_offsets};
ghost use Rattle.index_model.specs.Units.{is_types};
ghost use Rattle.debugnames_write.specs.Units.{is_listed, ArePlacesOf};

use crate::numbers::push_u32;
use index_model::{Part, Unit, UnitSort};
use std::alloc::{AllocError, Global};

/// The place of each unit of `.debug_info` among those of its sort, and how many there are of each sort.
#[derive(Drop)]
pub(crate) struct UnitPlaces {
    pub places: Vec<u32>,
    /// How many aren't type units.
    pub compile_units: u32,
    pub type_units: u32,
}

impl UnitPlaces {
    /// The places of these units.
    pub fn of(alloc: Global, units: &[Unit]) -> Result<UnitPlaces, AllocError>
        requires { length units.now ≤ 16777215 }
        ensures { IfOk result (ArePlacesOf units.now) }
    {
        let mut places = Vec::with_capacity(alloc, units.len())?;
        let mut compile_units = 0;
        let mut type_units = 0;
        for unit in units {
            if is_type_unit(unit) {
                places.push(type_units)?;
                type_units += count_in_info(unit);
            } else {
                places.push(compile_units)?;
                compile_units += count_in_info(unit);
            }
        }
        Ok(UnitPlaces {
            places,
            compile_units,
            type_units,
        })
    }

    /// The place of the unit with this number.
    pub fn at(&self, unit: u32) -> u32
        requires { unit < length self.now.places.items }
        ensures { result ≡ slice_index self.now.places.items unit }
    {
        self.places[unit as usize]
    }
}

/// Whether the unit is a type unit.
pub(crate) fn is_type_unit(unit: &Unit) -> bool
    ensures { result ≡ is_type_unit unit.now }
{
    match unit.sort {
        UnitSort::TypeUnit => true,
        _ => false,
    }
}

/// Appends where the units of one sort begin: the type units, or all others.
pub(crate) fn push_unit_offsets(
    out: &mut Vec<u8>,
    units: &[Unit],
    types: bool,
) -> Result<(), AllocError>
    requires { All (λ u. u.start < 4294967296) units.now }
    ensures { OnOk result (out.new.items ≡ out.old.items ++ unit_offsets types units.now) }
{
    for unit in units {
        if is_listed(unit, types) {
            push_u32(out, unit.start as u32)?;
        }
    }
    Ok(())
}

// Whether the unit stands in the list of the type units, or in that of all others.
fn is_listed(unit: &Unit, types: bool) -> bool
    ensures { result ≡ is_listed types unit.now }
{
    match unit.part {
        Part::Info => is_type_unit(unit) == types,
        Part::Types => false,
    }
}

// 1 for a unit of `.debug_info`.
fn count_in_info(unit: &Unit) -> u32
    ensures { result ≡ (if is_types unit.now.part then 0 else 1) }
{
    match unit.part {
        Part::Info => 1,
        Part::Types => 0,
    }
}
