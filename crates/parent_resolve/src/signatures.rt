//! The type units of a file by their signatures (DWARF 5, section 7.32).

ghost use Rattle.std.specs.Prelude.{◌≡◌, ◌≤◌, IfOk, length};
ghost use Rattle.std.specs.List.Sorted.{IsNonDecreasingBy};
ghost use Rattle.parent_resolve.specs.Signed.{AreSigned, IsFirstSigned, as_type_unit, first_signed, type_units};

use index_model::{Unit, UnitSort};
use ix_base::{MAX_UNITS, NoMemory};
use std::alloc::Global;

/// A type unit, by what a signature is looked up for.
#[derive(Clone, Copy)]
pub(crate) struct TypeUnit {
    pub(crate) signature: u64,
    /// The number of the unit in section order, counted from 0.
    pub(crate) unit: u32,
    /// Where the type stands, counted from the unit's first byte.
    pub(crate) type_offset: u64,
}

/// The type units of a file, by their signatures.
#[derive(Drop)]
pub(crate) struct Signatures {
    /// By their signatures, and of one signature in section order.
    pub(crate) units: Vec<TypeUnit>,
}

impl Signatures {
    /// Those among these units.
    pub(crate) fn of(alloc: Global, units: &[Unit]) -> Result<Signatures, NoMemory>
        requires { length units.now ≤ MAX_UNITS }
        ensures { IfOk result (λ s. AreSigned units.now s.units.items) }
    {
        let mut units = type_units(alloc, units)?;
        units.sort_by_key(|unit| unit.signature)?;
        Ok(Signatures { units })
    }

    /// The first type unit in section order that has the signature.
    pub(crate) fn find(&self, signature: u64) -> Option<TypeUnit>
        ensures { IsFirstSigned self.now.units.items signature result }
    {
        first_signed(self.units.as_slice(), signature)
    }
}

// The first of these that has the signature.
fn first_signed(units: &[TypeUnit], signature: u64) -> Option<TypeUnit>
    ensures { IsNonDecreasingBy (λ t. t.signature) units.now → result ≡ first_signed units.now signature }
{
    let place = units.partition_point(|unit| unit.signature < signature);
    let unit = *units.get(place)?;
    (unit.signature == signature).then_some(unit)
}

// The type units, in section order.
fn type_units(alloc: Global, units: &[Unit]) -> Result<Vec<TypeUnit>, NoMemory>
    requires { length units.now ≤ MAX_UNITS }
    ensures { IfOk result (λ v. v.items ≡ type_units units.now) }
{
    let mut found = Vec::new(alloc);
    for (number, unit) in units.iter().enumerate() {
        if let Some(unit) = as_type_unit(number as u32, unit) {
            found.push(unit)?;
        }
    }
    Ok(found)
}

// What is kept of the unit with this number, if it is a type unit.
fn as_type_unit(number: u32, unit: &Unit) -> Option<TypeUnit>
    ensures { result ≡ as_type_unit (number, unit.now) }
{
    match unit.sort {
        UnitSort::TypeUnit => Some(TypeUnit {
            signature: unit.signature,
            unit: number,
            type_offset: unit.type_offset,
        }),
        _ => None,
    }
}
