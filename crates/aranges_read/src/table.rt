//! The table as a map of addresses.

ghost use Rattle.std.specs.Prelude.{◌≡◌, ◌≤◌, [], length, IfOk};
ghost use Rattle.ix_base.specs.Moves.{MovesOn};
ghost use Rattle.ix_base.specs.Reading.{input};
ghost use Rattle.index_model.specs.Gives.{Gives, GivesFor};
ghost use Rattle.index_model.specs.Tiling.{tiles};
ghost use Rattle.reach_model.specs.AddressSets.{address_sets, next_set};
ghost use Rattle.aranges_read.specs.Sets.{with_set, with_sets, Rise};
ghost use Rattle.aranges_read.specs.Tables.{HasTheUnitsOf};

use crate::header::SetParts;
use crate::pairs::add_pairs;
use address_map::AddressMap;
use file_image::Image;
use index_model::{Unit, UnitRange};
use ix_base::{Cursor, Fault, MAX_UNITS, Stop};
use reach_model::code::ARANGES_LENGTH;
use std::alloc::Global;

/// The map of the address table of a program: at each address the least unit among the sets that have it. A program without a
/// table has a map without addresses.
///
/// Stops at the first fault of a set: an initial length that is cut or reserved, a set that leaves the section or a header that
/// leaves its set, a version that isn't 2, an offset at which no unit of `.debug_info` begins, addresses of another size than 8
/// bytes or segments, or no pair of zeros. The place of a fault is the set's offset.
pub fn read(alloc: Global, image: &Image<'_>) -> Result<AddressMap, Stop>
    ensures { GivesFor HasTheUnitsOf result (address_sets image.now.sections image.now.units) }
{
    let bytes = image.sections().get(b".debug_aranges");
    let mut ranges = ranges_of_sets(alloc, image.units(), bytes)?;
    // In a map the first range that contains an address wins.
    ranges.sort_by_key(|range| range.unit)?;
    Ok(AddressMap::build(alloc, &ranges)?)
}

// The ranges of the sets that tile the bytes, each with its unit.
fn ranges_of_sets(alloc: Global, units: &[Unit], bytes: &[u8]) -> Result<Vec<UnitRange>, Stop>
    requires rise { Rise 0 units.now }
    requires few { length units.now ≤ MAX_UNITS }
    ensures { Gives (λ v. v.items) result (with_sets [] (tiles (next_set units.now) 0 (input bytes.now 0))) }
{
    let mut ranges = Vec::new(alloc);
    let mut cursor = Cursor::new(bytes, 0);
    while cursor.at() < bytes.len() {
        add_set(&mut ranges, units, &mut cursor)?;
    }
    Ok(ranges)
}

// Adds the ranges of the set at the front, which is passed.
#[tactic(auto, unfolding(reach_model::specs::AddressSets::next_set))]
fn add_set(ranges: &mut Vec<UnitRange>, units: &[Unit], cursor: &mut Cursor<'_>) -> Result<(), Stop>
    requires rise { Rise 0 units.now }
    requires few { length units.now ≤ MAX_UNITS }
    ensures value { Gives (λ _. (ranges.new.items, cursor.new)) result (with_set ranges.old.items (next_set units.now 0 cursor.old)) }
    ensures place { MovesOn cursor.old cursor.new }
{
    let place = cursor.at() as u64;
    let parts = SetParts::read(cursor).ok_or(Fault {
        code: ARANGES_LENGTH,
        at: place,
    })?;
    let unit = parts.header.unit(units, place)?;
    add_pairs(ranges, unit, place, parts.pairs)
}
