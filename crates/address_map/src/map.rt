//! The map from addresses to units.

ghost use Rattle.std.specs.Prelude.{◌≡◌, ℕ, IfOk};
ghost use Rattle.index_model.specs.Pieces.{AreApart, IsPieces, pieces};
ghost use Rattle.index_model.specs.Ranges.{unit_at};
ghost use Rattle.address_map.specs.Laws.{IsFirstUnit};

use crate::overlay::overlay;
use index_model::UnitRange;
use ix_base::NoMemory;
use std::alloc::Global;
use std::marker::Model;

/// The unit at each address. Contracts see it as the list of its pieces.
#[derive(Drop)]
pub struct AddressMap {
    pieces: Vec<UnitRange>,
}

impl Model for AddressMap {
    ghost use Rattle.std.specs.Prelude.{List};
    ghost use Rattle.index_model.specs.declared.range.UnitRange.{UnitRange};
    ghost use Rattle.index_model.specs.Pieces.{AreApart};

    ghost Value = { List UnitRange };

    ghost view = { λ m. m.pieces.items };

    ghost invariant = { λ m. AreApart m.pieces.items };
}

impl AddressMap {
    /// The map of ranges of units, which stand in section order of their units. They may overlap, and a range may have no
    /// address (`low` at or above `end`). n ranges cost n log n, and one pass where they ascend.
    ///
    /// The map is the pieces of the definition: each address has the first unit in section order with a range that
    /// contains it (DWARF 5, section 2.17).
    pub fn build(alloc: Global, ranges: &[UnitRange]) -> Result<AddressMap, NoMemory>
        ensures map { IfOk result (λ m. m ≡ pieces ranges.now) }
        ensures pieces { IfOk result (λ m. IsPieces ranges.now m) }
        ensures first { IfOk result (λ m. (a : ℕ) → IsFirstUnit ranges.now a (unit_at m a)) }
    {
        let pieces = overlay(alloc, ranges)?;
        Ok(AddressMap { pieces })
    }

    /// The number of the unit at an address, or None where no unit has a range that contains it. A range doesn't contain its
    /// end. It is found by binary search.
    pub fn unit_at(&self, address: u64) -> Option<u32>
        ensures { result ≡ unit_at self.now address }
    {
        unit_among(&self.pieces, address)
    }

    /// The maximal ranges in which one unit is the unit at the address, ascending.
    pub fn pieces(&self) -> &[UnitRange]
        ensures { result.now ≡ self.now }
    {
        &self.pieces
    }
}

// The unit of the piece that contains the address. Only the last piece that begins there or before can do so.
fn unit_among(pieces: &[UnitRange], address: u64) -> Option<u32>
    requires { AreApart pieces.now }
    ensures { result ≡ unit_at pieces.now address }
{
    let begun = pieces.partition_point(|piece| piece.range.low <= address);
    let piece = pieces[begun.checked_sub(1)?];
    if address < piece.range.end {
        Some(piece.unit)
    } else {
        None
    }
}
