//! An entry of a list of ranges (DWARF 5, section 2.17.3 and table 7.30; DWARF 4, section 2.17.3).

ghost use Rattle.std.specs.Prelude.{◌≡◌};
ghost use Rattle.index_model.specs.Gives.{GivesAlways};
ghost use Rattle.index_model.specs.RangeLists.{pair_at, kind_at, index, plain, fixed};
ghost use Rattle.range_lists.specs.Homes.{unit_with};
ghost use Rattle.range_lists.specs.Lists.{entry_seen, reader_for};

use crate::home::RangeUnit;
use ix_base::Cursor;
use ix_base::code::BAD_RANGE;

/// How a list is written.
#[derive(Clone, Copy, PartialEq, Eq, PartialOrd, Ord, Drop)]
pub(crate) enum ListFormat {
    /// Pairs of addresses, in `.debug_ranges`.
    Pairs,
    /// A kind and its operands, in `.debug_rnglists`.
    Kinds,
}

/// An entry of a list.
#[derive(Clone, Copy)]
pub(crate) enum RangeListEntry {
    /// The list ends.
    End,
    /// A new base.
    Base(u64),
    /// The range from an address to another.
    Bounds(u64, u64),
    /// The same, both counted from the base.
    Offsets(u64, u64),
    /// The range from an address on, and how many bytes it has.
    Length(u64, u64),
}

// A pair of versions 2 to 4.
#[tactic(auto, unfolding(index_model::specs::RangeLists::pair_at))]
fn read_pair(cursor: &mut Cursor<'_>) -> Result<RangeListEntry, u8>
    ensures { GivesAlways (λ e. (entry_seen e, cursor.new)) result (pair_at cursor.old) }
{
    let low = cursor.u64().ok_or(BAD_RANGE)?;
    let high = cursor.u64().ok_or(BAD_RANGE)?;
    if low == 0 && high == 0 {
        Ok(RangeListEntry::End)
    } else if low == u64::MAX {
        Ok(RangeListEntry::Base(high))
    } else {
        Ok(RangeListEntry::Offsets(low, high))
    }
}

// An address of eight bytes.
fn fixed(cursor: &mut Cursor<'_>) -> Result<u64, u8>
    ensures { GivesAlways (λ a. (a, cursor.new)) result (fixed cursor.old) }
{
    match cursor.u64() {
        Some(address) => Ok(address),
        None => Err(BAD_RANGE),
    }
}

// A LEB number.
fn plain(cursor: &mut Cursor<'_>) -> Result<u64, u8>
    ensures { GivesAlways (λ n. (n, cursor.new)) result (plain cursor.old) }
{
    match cursor.uleb() {
        Some(number) => Ok(number),
        None => Err(BAD_RANGE),
    }
}

impl RangeUnit<'_> {
    // The address at an index, which is looked up as soon as it was read.
    fn read_index(&self, cursor: &mut Cursor<'_>) -> Result<u64, u8>
        ensures { GivesAlways (λ a. (a, cursor.new)) result (index self.now.sections.now (unit_with self.now) cursor.old) }
    {
        let index = plain(cursor)?;
        self.indexed(index)
    }

    // A kind and its operands.
    #[tactic(auto, unfolding(index_model::specs::RangeLists::kind_at))]
    fn read_kind(&self, cursor: &mut Cursor<'_>) -> Result<RangeListEntry, u8>
        ensures { GivesAlways (λ e. (entry_seen e, cursor.new)) result (kind_at self.now.sections.now (unit_with self.now) cursor.old) }
    {
        match cursor.u8().ok_or(BAD_RANGE)? {
            0 => Ok(RangeListEntry::End),
            1 => Ok(RangeListEntry::Base(self.read_index(cursor)?)),
            2 => Ok(RangeListEntry::Bounds(self.read_index(cursor)?, self.read_index(cursor)?)),
            3 => Ok(RangeListEntry::Length(self.read_index(cursor)?, plain(cursor)?)),
            4 => Ok(RangeListEntry::Offsets(plain(cursor)?, plain(cursor)?)),
            5 => Ok(RangeListEntry::Base(fixed(cursor)?)),
            6 => Ok(RangeListEntry::Bounds(fixed(cursor)?, fixed(cursor)?)),
            7 => Ok(RangeListEntry::Length(fixed(cursor)?, plain(cursor)?)),
            _ => Err(BAD_RANGE),
        }
    }

    /// The entry at the cursor of a list.
    pub(crate) fn read_entry(
        &self,
        format: ListFormat,
        cursor: &mut Cursor<'_>,
    ) -> Result<RangeListEntry, u8>
        ensures { GivesAlways (λ e. (entry_seen e, cursor.new)) result (reader_for format self.now.sections.now (unit_with self.now) cursor.old) }
    {
        match format {
            ListFormat::Pairs => read_pair(cursor),
            ListFormat::Kinds => self.read_kind(cursor),
        }
    }
}
