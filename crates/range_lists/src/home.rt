//! Addresses of a unit, some of which stand in `.debug_addr` (DWARF 5, sections 7.5.5, class address, and 7.27).

ghost use Rattle.std.specs.Prelude.{◌≡◌, drop};
ghost use Rattle.index_model.specs.Gives.{GivesAlways};
ghost use Rattle.index_model.specs.Attributes.{low_pc};
ghost use Rattle.index_model.specs.Program.{root_of};
ghost use Rattle.index_model.specs.RangeLists.{address_of, indexed_address};
ghost use Rattle.index_model.specs.Ranges.{first_base};
ghost use Rattle.std.specs.Prelude.{option_and_then};
ghost use Rattle.range_lists.specs.Homes.{as_value, unit_with};

use file_image::Sections;
use index_model::{Raw, Unit};
use ix_base::Cursor;
use ix_base::code::{BAD_RANGE, NO_BASE};

/// The bytes of an address.
const ADDRESS_SIZE: u64 = 8;

/// A unit, by its header and what its root says of all its ranges.
#[derive(Clone, Copy)]
pub(crate) struct RangeUnit<'f> {
    pub(crate) sections: &'f Sections<'f>,
    /// The number of the unit in section order.
    pub(crate) number: u32,
    pub(crate) header: Unit,
    /// Where the unit's part of `.debug_addr` begins.
    pub(crate) addr_base: Option<u64>,
    /// Where the unit's part of `.debug_rnglists` begins.
    pub(crate) rnglists_base: Option<u64>,
    /// The low_pc of the root, from which lists count.
    pub(crate) low: Option<Raw>,
}

// A cursor at a place of a section. Behind the section's end there is nothing to read.
pub(crate) fn cursor_at<'a>(bytes: &'a [u8], at: u64) -> Cursor<'a>
    ensures { result.rest ≡ drop at bytes.now }
{
    let at = at.min(bytes.len() as u64);
    Cursor::new(bytes, at as usize)
}

impl<'f> RangeUnit<'f> {
    /// The address at an index of `.debug_addr`.
    pub(crate) fn indexed(&self, index: u64) -> Result<u64, u8>
        ensures { GivesAlways (λ a. a) result (indexed_address self.now.sections.now (unit_with self.now) index) }
    {
        let base = self.addr_base.ok_or(NO_BASE)?;
        let at = base.saturating_add(index.saturating_mul(ADDRESS_SIZE));
        Ok(
            cursor_at(self.sections.debug_addr(), at)
                .u64()
                .ok_or(BAD_RANGE)?,
        )
    }

    /// The address for which a number stands.
    #[tactic(auto, unfolding(index_model::specs::RangeLists::address_of))]
    pub(crate) fn address(&self, number: Raw) -> Result<u64, u8>
        ensures { GivesAlways (λ a. a) result (address_of self.now.sections.now (unit_with self.now) (as_value number)) }
    {
        match number {
            Raw::Address(address) => Ok(address),
            Raw::AddressIndex(index) => self.indexed(index),
            Raw::Constant(_) | Raw::Offset(_) | Raw::RangeIndex(_) => Err(BAD_RANGE),
        }
    }

    /// The base from which a list counts at first.
    #[tactic(auto, unfolding(index_model::specs::RangeLists::address_of), using(crate::proofs::Roots::low_at))]
    pub(crate) fn first_base(&self) -> Result<u64, u8>
        ensures { GivesAlways (λ a. a) result (first_base self.now.sections.now (unit_with self.now) (option_and_then low_pc (root_of (unit_with self.now)))) }
    {
        match self.low {
            Some(Raw::Address(address)) => Ok(address),
            Some(Raw::AddressIndex(index)) => self.indexed(index),
            Some(Raw::Constant(_) | Raw::Offset(_) | Raw::RangeIndex(_)) | None => Ok(0),
        }
    }
}
