//! Lists of ranges, in `.debug_ranges` and `.debug_rnglists` (DWARF 5, sections 2.17.3 and 7.25).

ghost use Rattle.std.specs.Prelude.{◌≡◌, ◌+◌, ◌++◌, ◌<◌, ◌∷◌, [], codes, filter, length, IfOk, None, Some, OnOk};
ghost use Rattle.index_model.specs.Gives.{GivesAlways};
ghost use Rattle.index_model.specs.RangeLists.{list_at, list_of, list_offset, top};
ghost use Rattle.index_model.specs.Ranges.{is_kept, ranges_by};
ghost use Rattle.index_model.specs.Sections.{section_bytes};
ghost use Rattle.index_model.specs.Strings.{offset_size};
ghost use Rattle.range_lists.specs.Found.{list_ranges, AreRead, IsAdded, IsReadOn};
ghost use Rattle.range_lists.specs.Gives.{GivesOrRefused, RefusedOr};
ghost use Rattle.range_lists.specs.Homes.{as_value, unit_with};
ghost use Rattle.range_lists.specs.Lists.{entry_seen, reader_for, lists_in, kept, behind, capped, as_list, range_in, base_behind};
ghost use Rattle.range_lists.specs.Same.{of_unit};

use crate::found::{FoundRanges, RangeList};
use crate::home::{RangeUnit, cursor_at};
use crate::list_entry::{ListFormat, RangeListEntry};
use index_model::{Range, Raw, UnitRange};
use ix_base::code::{BAD_RANGE, NO_BASE};
use ix_base::{Cursor, NoMemory, OrMemory};

/// A list remembers its ends that begin behind each sixteenth entry, and stops where it comes to an end that is remembered. So of
/// lists that are ends of one another and count from one base, no more than 16 read any one entry, in whatever order they come. A
/// list of fewer entries remembers only where it begins, and looks for nothing else.
const ENTRIES_APART: usize = 16;

// The range between two offsets from a base. It doesn't count if it begins at 0, begins or ends too high, or has no byte.
pub(crate) fn range_from(base: u64, low: u64, end: u64) -> Option<Range>
    ensures { as_list result ≡ filter is_kept (record { low = base + low; end = base + end } ∷ []) }
{
    let low = base.checked_add(low)?;
    let end = base.checked_add(end)?;
    if low == 0 || low >= u64::MAX - 1 || low >= end {
        return None;
    }
    Some(Range { low, end })
}

// Adds a range of the unit, if it counts.
pub(crate) fn add_range(
    ranges: &mut Vec<UnitRange>,
    unit: u32,
    range: Option<Range>,
) -> Result<(), NoMemory>
    ensures { OnOk result (ranges.new.items ≡ ranges.old.items ++ of_unit unit (as_list range)) }
{
    match range {
        Some(range) => Ok(ranges.push(UnitRange { unit, range })?),
        None => Ok(()),
    }
}

// The bytes of an offset (DWARF 5, section 7.4).
fn offset_size(wide: bool) -> u64
    ensures { result ≡ offset_size wide }
{
    if wide { 8 } else { 4 }
}

impl RangeListEntry {
    // The range of the entry, if it has one that counts.
    fn range(&self, base: u64) -> Option<Range>
        ensures { as_list result ≡ range_in (entry_seen self.now) base }
    {
        match *self {
            RangeListEntry::End | RangeListEntry::Base(_) => None,
            RangeListEntry::Bounds(low, end) => range_from(0, low, end),
            RangeListEntry::Offsets(low, end) => range_from(base, low, end),
            RangeListEntry::Length(low, bytes) => range_from(low, 0, bytes),
        }
    }

    // The base behind the entry. None behind the last.
    fn base_behind(&self, base: u64) -> Option<u64>
        ensures { result ≡ base_behind (entry_seen self.now) base }
    {
        match *self {
            RangeListEntry::End => None,
            RangeListEntry::Base(address) => Some(address),
            RangeListEntry::Bounds(..) | RangeListEntry::Offsets(..) | RangeListEntry::Length(..) =>
                Some(base),
        }
    }
}

impl<'f> RangeUnit<'f> {
    // Adds the ranges of a list, up to an end of it that was read before, and gives the ends that are to be remembered now. Of a
    // list with a fault none is.
    fn add_list_at(
        &self,
        found: &mut FoundRanges,
        list: RangeList,
    ) -> Result<Vec<RangeList>, OrMemory<u8>>
        ensures { AreRead self.now.sections.now found.old → list.addr_base ≡ self.now.addr_base → RefusedOr (λ ends. IsReadOn self.now.sections.now self.now.number found.old found.new ends.items) result (list_ranges self.now.sections.now (unit_with self.now) list) }
    {
        let bytes = self.lists_in(list.format);
        if list.place > bytes.len() as u64 {
            return Err(OrMemory::Cause(BAD_RANGE));
        }
        let mut cursor = Cursor::new(bytes, list.place as usize);
        let mut base = list.base;
        let mut ends = Vec::new(*found.ranges.allocator());
        // There are fewer entries than bytes.
        'entries: for number in 0..bytes.len() {
            let entry = self.read_entry(list.format, &mut cursor)?;
            let Some(next) = entry.base_behind(base) else {
                return Ok(ends);
            };
            add_range(&mut found.ranges, self.number, entry.range(base))?;
            base = next;
            if number % ENTRIES_APART == ENTRIES_APART - 1 {
                let end = RangeList {
                    place: cursor.at() as u64,
                    base,
                    ..list
                };
                if found.has(end) {
                    return Ok(ends);
                }
                ends.push(end)?;
            }
        }
        Err(OrMemory::Cause(BAD_RANGE))
    }

    // Where the list of an index begins in `.debug_rnglists`. A place that is too high counts as the greatest.
    fn list_place(&self, index: u64) -> Result<u64, u8>
        ensures place { GivesAlways (λ place. place) result (capped (list_offset self.now.sections.now (unit_with self.now) index)) }
        ensures short { IfOk result (λ _. length (section_bytes self.now.sections.now (codes ".debug_rnglists")) < top) }
    {
        let base = self.rnglists_base.ok_or(NO_BASE)?;
        let size = offset_size(self.header.wide);
        let at = base.saturating_add(index.saturating_mul(size));
        let offset = cursor_at(self.sections.debug_rnglists(), at)
            .offset(self.header.wide)
            .ok_or(BAD_RANGE)?;
        Ok(base.saturating_add(offset))
    }

    // The section in which lists of a format stand.
    fn lists_in(&self, format: ListFormat) -> &'f [u8]
        ensures value { result.now ≡ lists_in format self.now.sections.now }
        ensures small { length result.now < top }
    {
        match format {
            ListFormat::Pairs => self.sections.debug_ranges(),
            ListFormat::Kinds => self.sections.debug_rnglists(),
        }
    }

    // How many bytes the sections have in which lists stand.
    fn bytes_of_lists(&self) -> u64 {
        let pairs = self.sections.debug_ranges().len() as u64;
        pairs.saturating_add(self.sections.debug_rnglists().len() as u64)
    }

    // Adds the ranges of the list at a place, unless it was read before.
    fn add_list_once(
        &self,
        found: &mut FoundRanges,
        format: ListFormat,
        first_base: u64,
        place: u64,
    ) -> Result<(), OrMemory<u8>>
        ensures { AreRead self.now.sections.now found.old → RefusedOr (λ _. IsAdded self.now.sections.now self.now.number found.old found.new) result (kept (list_at (reader_for format self.now.sections.now (unit_with self.now)) first_base (lists_in format self.now.sections.now) place)) }
    {
        let list = RangeList {
            format,
            place,
            base: first_base,
            addr_base: self.addr_base,
        };
        if found.has(list) {
            return Ok(());
        }
        let before = found.ranges.len();
        let ends = self.add_list_at(found, list)?;
        let ranges = found.ranges.len().saturating_sub(before) as u64;
        found.count(ranges, self.bytes_of_lists())?;
        found.note_all(ends.as_slice())?;
        Ok(found.note(list)?)
    }

    // Adds the ranges of a list.
    #[tactic(auto, unfolding(index_model::specs::RangeLists::list_of))]
    fn add_list_from(
        &self,
        found: &mut FoundRanges,
        first_base: u64,
        list: Raw,
    ) -> Result<(), OrMemory<u8>>
        ensures { AreRead self.now.sections.now found.old → RefusedOr (λ _. IsAdded self.now.sections.now self.now.number found.old found.new) result (kept (list_of self.now.sections.now (unit_with self.now) first_base (as_value list))) }
    {
        match list {
            Raw::RangeIndex(index) => {
                let place = self.list_place(index)?;
                self.add_list_once(found, ListFormat::Kinds, first_base, place)
            }
            Raw::Offset(place) => {
                if self.header.version == 5 {
                    self.add_list_once(found, ListFormat::Kinds, first_base, place)
                } else {
                    self.add_list_once(found, ListFormat::Pairs, first_base, place)
                }
            }
            Raw::Address(_) | Raw::AddressIndex(_) | Raw::Constant(_) => {
                Err(OrMemory::Cause(BAD_RANGE))
            }
        }
    }

    /// Adds the ranges of a list, which counts from the low_pc of the root at first. Those that don't count are left out.
    #[tactic(auto, unfolding(index_model::specs::Ranges::ranges_by))]
    pub(crate) fn add_list(&self, found: &mut FoundRanges, list: Raw) -> Result<(), OrMemory<u8>>
        ensures { AreRead self.now.sections.now found.old → RefusedOr (λ _. IsAdded self.now.sections.now self.now.number found.old found.new) result (kept (ranges_by self.now.sections.now (unit_with self.now) (Some (as_value list)) None None)) }
    {
        let first_base = self.first_base()?;
        self.add_list_from(found, first_base, list)
    }
}
