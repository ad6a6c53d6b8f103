//! The ranges of one entry (DWARF 5, section 2.17).

ghost use Rattle.std.specs.Prelude.{◌≡◌, None, Some, option_map};
ghost use Rattle.index_model.specs.Gives.{GivesAlways, GivesFor};
ghost use Rattle.index_model.specs.Ranges.{bounds, ranges_by};
ghost use Rattle.range_lists.specs.Found.{AreRead, IsAdded};
ghost use Rattle.range_lists.specs.Gives.{GivesOrRefused, RefusedOr};
ghost use Rattle.range_lists.specs.Homes.{as_high, as_value, unit_with};
ghost use Rattle.range_lists.specs.Lists.{as_list, behind, kept};
ghost use Rattle.range_lists.specs.Nodes.{has_node_ranges, node_ranges};

use crate::found::FoundRanges;
use crate::home::RangeUnit;
use crate::lists::{add_range, range_from};
use index_model::{Node, Range, Raw, UnitRange};
use ix_base::code::BAD_RANGE;
use ix_base::{Fault, OrMemory, Stop};

/// Whether the entry has ranges, or low_pc and high_pc.
pub(crate) fn has_ranges(node: &Node<'_>) -> bool
    ensures { result ≡ has_node_ranges node.now }
{
    node.ranges.is_some() || (node.low.is_some() && node.high.is_some())
}

impl RangeUnit<'_> {
    // The range from a low end to a high end, if it counts.
    #[tactic(auto, unfolding(index_model::specs::Ranges::bounds, index_model::specs::RangeLists::address_of))]
    fn range_to(&self, low: u64, high: Raw) -> Result<Option<Range>, u8>
        ensures { GivesAlways as_list result (kept (bounds self.now.sections.now (unit_with self.now) low (as_high high))) }
    {
        match high {
            Raw::Constant(bytes) => Ok(range_from(low, 0, bytes)),
            Raw::Address(end) => Ok(range_from(0, low, end)),
            Raw::AddressIndex(index) => {
                let end = self.indexed(index)?;
                Ok(range_from(0, low, end))
            }
            Raw::Offset(_) | Raw::RangeIndex(_) => Err(BAD_RANGE),
        }
    }

    // Adds the range from a low end to a high end. The low end is read first.
    #[tactic(auto, unfolding(index_model::specs::Ranges::ranges_by))]
    fn add_bounds(
        &self,
        ranges: &mut Vec<UnitRange>,
        low: Raw,
        high: Raw,
    ) -> Result<(), OrMemory<u8>>
        ensures { GivesOrRefused (λ _. ranges.new.items) result (behind self.now.number ranges.old.items (kept (ranges_by self.now.sections.now (unit_with self.now) None (Some (as_value low)) (Some (as_high high))))) }
    {
        let low = self.address(low)?;
        let range = self.range_to(low, high)?;
        Ok(add_range(ranges, self.number, range)?)
    }

    // Adds the ranges of an entry, by its ranges, or else by its low_pc and high_pc.
    #[tactic(auto, unfolding(index_model::specs::Ranges::ranges_by))]
    fn add_ranges(
        &self,
        found: &mut FoundRanges,
        list: Option<Raw>,
        low: Option<Raw>,
        high: Option<Raw>,
    ) -> Result<(), OrMemory<u8>>
        ensures { AreRead self.now.sections.now found.old → RefusedOr (λ _. IsAdded self.now.sections.now self.now.number found.old found.new) result (kept (ranges_by self.now.sections.now (unit_with self.now) (option_map as_value list) (option_map as_value low) (option_map as_high high))) }
    {
        match (list, low, high) {
            (Some(list), _, _) => self.add_list(found, list),
            (None, Some(low), Some(high)) => self.add_bounds(&mut found.ranges, low, high),
            (None, Some(_), None) | (None, None, _) => Ok(()),
        }
    }

    /// Adds the ranges of the entry of a node. A fault has the place of the entry.
    #[tactic(auto, unfolding(crate::specs::Nodes::node_ranges))]
    pub(crate) fn add_node(&self, found: &mut FoundRanges, node: &Node<'_>) -> Result<(), Stop>
        ensures { AreRead self.now.sections.now found.old → GivesFor (λ _. IsAdded self.now.sections.now self.now.number found.old found.new) result (node_ranges self.now.sections.now (unit_with self.now) node.now) }
    {
        match self.add_ranges(found, node.ranges, node.low, node.high) {
            Ok(()) => Ok(()),
            Err(OrMemory::Cause(code)) => Err(Stop::Cause(Fault {
                code,
                at: node.offset,
            })),
            Err(OrMemory::Memory) => Err(Stop::Memory),
        }
    }
}
