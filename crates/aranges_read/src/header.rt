//! The header of a set (DWARF 5, section 6.1.2).

ghost use Rattle.std.specs.Prelude.{◌≡◌, ◌≤◌, drop, length};
ghost use Rattle.ix_base.specs.Moves.{MovesOn, Reads};
ghost use Rattle.index_model.specs.Gives.{GivesAlways};
ghost use Rattle.reach_model.specs.AddressSets.{padding, set_header, set_parts, unit_from, unit_of_set};
ghost use Rattle.aranges_read.specs.Sets.{header_seen, parts_seen, Rise};

use index_model::{Part, Unit};
use ix_base::{Cursor, Fault, MAX_UNITS};
use reach_model::code;

/// The version of a set.
const VERSION: u16 = 2;

const ADDRESS_BYTES: u8 = 8;

/// The bytes of an address and a length.
const PAIR_BYTES: usize = 16;

/// What stands in the header behind the initial length.
#[derive(Clone, Copy)]
pub(crate) struct SetHeader {
    version: u16,
    unit_offset: u64,
    address_size: u8,
    segment_size: u8,
}

/// The header of a set, and the bytes of its pairs.
#[derive(Clone, Copy)]
pub(crate) struct SetParts<'a> {
    pub(crate) header: SetHeader,
    pub(crate) pairs: &'a [u8],
}

impl SetHeader {
    #[tactic(auto, unfolding(reach_model::specs::AddressSets::set_header))]
    fn read(wide: bool, own: &mut Cursor<'_>) -> Option<SetHeader>
        ensures value { Reads header_seen (set_header wide) own.old own.new result }
        ensures place { MovesOn own.old own.new }
    {
        let version = own.u16()?;
        let unit_offset = own.offset(wide)?;
        let address_size = own.u8()?;
        let segment_size = own.u8()?;
        Some(SetHeader {
            version,
            unit_offset,
            address_size,
            segment_size,
        })
    }

    /// The number of its unit among these, or the fault of the set at a place.
    #[tactic(auto, unfolding(reach_model::specs::AddressSets::unit_of_set))]
    pub(crate) fn unit(&self, units: &[Unit], place: u64) -> Result<u32, Fault>
        requires rise { Rise 0 units.now }
        requires few { length units.now ≤ MAX_UNITS }
        ensures { GivesAlways (λ u. u) result (unit_of_set units.now place (header_seen self.now)) }
    {
        if self.version != VERSION {
            return Err(Fault {
                code: code::ARANGES_VERSION,
                at: place,
            });
        }
        let unit = unit_from(units, self.unit_offset).ok_or(Fault {
            code: code::ARANGES_UNIT,
            at: place,
        })?;
        if self.address_size != ADDRESS_BYTES || self.segment_size != 0 {
            return Err(Fault {
                code: code::ARANGES_SIZES,
                at: place,
            });
        }
        Ok(unit)
    }
}

impl<'a> SetParts<'a> {
    /// The parts of the set at the front, which is passed.
    #[tactic(auto, unfolding(reach_model::specs::AddressSets::set_parts))]
    pub(crate) fn read(cursor: &mut Cursor<'a>) -> Option<SetParts<'a>>
        ensures value { Reads parts_seen set_parts cursor.old cursor.new result }
        ensures place { MovesOn cursor.old cursor.new }
    {
        let start = cursor.at();
        let initial = cursor.initial_length()?;
        let mut own = cursor.part(initial.length)?;
        let header = SetHeader::read(initial.wide, &mut own)?;
        let pairs = behind_padding(own.rest(), own.at() - start);
        Some(SetParts { header, pairs })
    }
}

// What stands behind the bytes that fill up so many before them to a multiple of 16.
fn behind_padding(bytes: &[u8], before: usize) -> &[u8]
    ensures { result.now ≡ drop (padding before) bytes.now }
{
    let padding = (PAIR_BYTES - before % PAIR_BYTES) % PAIR_BYTES;
    bytes.get(padding..).unwrap_or(&[])
}

// The number of the unit of `.debug_info` that begins at an offset. It is found by binary search.
fn unit_from(units: &[Unit], offset: u64) -> Option<u32>
    requires rise { Rise 0 units.now }
    requires few { length units.now ≤ MAX_UNITS }
    ensures { result ≡ unit_from units.now offset }
{
    let number = units.partition_point(|unit| unit.start < offset);
    let unit = units.get(number)?;
    if unit.start != offset {
        return None;
    }
    match unit.part {
        Part::Info => Some(number as u32),
        Part::Types => None,
    }
}
