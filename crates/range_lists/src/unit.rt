//! The ranges of a unit (DWARF 5, section 2.17, and 3.1.1 for the base of its lists).

ghost use Rattle.std.specs.Prelude.{◌≡◌, ◌<◌, IfSome, filter, map, slice_get};
ghost use Rattle.std.specs.Arc.{arc_value};
ghost use Rattle.index_model.specs.Gives.{GivesFor};
ghost use Rattle.file_image.specs.Images.{image_of};
ghost use Rattle.range_lists.specs.Found.{AreRead, IsAdded};
ghost use Rattle.range_lists.specs.Homes.{unit_with};
ghost use Rattle.range_lists.specs.Units.{first_low, ForUnit, ForWalk};
ghost use Rattle.range_lists.specs.Nodes.{all_node_ranges, is_linked_subprogram, nodes_with_ranges, EntriesRise};

use crate::found::FoundRanges;
use crate::home::RangeUnit;
use crate::node::has_ranges;
use crate::run::{is_linked, run_of};
use crate::unit_nodes::UnitNodes;
use dwarf_codes::tag::DW_TAG_subprogram;
use file_image::Image;
use index_model::{Linked, LinkedEntry, Node, Raw, Shard, Unit, root_in};
use ix_base::{MAX_UNITS, Stop};
use std::sync::Arc;

// Whether the node is that of a subprogram that is linked.
fn is_linked_subprogram(node: &Node<'_>, entries: &[LinkedEntry<'_>]) -> bool
    ensures { EntriesRise entries.now → result ≡ is_linked_subprogram entries.now node.now }
{
    node.tag == DW_TAG_subprogram && is_linked(entries, node.offset)
}

// The low_pc of the first node.
fn first_low(nodes: &UnitNodes<'_, '_>) -> Option<Raw>
    ensures { result ≡ first_low nodes.now }
{
    if nodes.len() == 0 {
        return None;
    }
    nodes.node(0).low
}

// The header of a unit.
fn header_of(image: &Image<'_>, unit: u32) -> Option<Unit>
    ensures value { result ≡ slice_get image.now.units unit }
    ensures of_file { image_of image.now.file ≡ Ok image.now }
    ensures few { IfSome result (λ _. unit < MAX_UNITS) }
{
    image.units().get(unit as usize).copied()
}

impl RangeUnit<'_> {
    // Adds the ranges of the linked subprograms among these nodes.
    fn add_subprograms(
        &self,
        found: &mut FoundRanges,
        nodes: &UnitNodes<'_, '_>,
        entries: &[LinkedEntry<'_>],
    ) -> Result<(), Stop>
        ensures { EntriesRise entries.now → AreRead self.now.sections.now found.old → GivesFor (λ _. IsAdded self.now.sections.now self.now.number found.old found.new) result (all_node_ranges self.now.sections.now (unit_with self.now) (filter (is_linked_subprogram entries.now) nodes.now)) }
    {
        for k in 0..nodes.len() {
            let node = nodes.node(k);
            if is_linked_subprogram(&node, entries) {
                self.add_node(found, &node)?;
            }
        }
        Ok(())
    }

    // Adds the ranges of the root, or else those of the linked subprograms. The nodes are those of the unit.
    pub(crate) fn add_nodes(
        &self,
        found: &mut FoundRanges,
        nodes: &UnitNodes<'_, '_>,
        entries: &[LinkedEntry<'_>],
    ) -> Result<(), Stop>
        ensures { EntriesRise entries.now → AreRead self.now.sections.now found.old → GivesFor (λ _. IsAdded self.now.sections.now self.now.number found.old found.new) result (all_node_ranges self.now.sections.now (unit_with self.now) (nodes_with_ranges entries.now nodes.now)) }
    {
        if nodes.len() == 0 {
            return Ok(());
        }
        let root = nodes.node(0);
        if has_ranges(&root) {
            self.add_node(found, &root)
        } else {
            self.add_subprograms(found, nodes, entries)
        }
    }
}

// Adds the ranges of a unit of the shard's run.
fn add_in_run(
    found: &mut FoundRanges,
    image: &Image<'_>,
    shard: &Shard<'_>,
    linked: &Linked<'_>,
    unit: u32,
) -> Result<(), Stop>
    ensures ranges { AreRead image.now.sections found.old → ForWalk image.now shard.now linked.now unit (λ ranges. GivesFor (λ _. IsAdded image.now.sections unit found.old found.new) result ranges) }
    ensures of_file { image_of image.now.file ≡ Ok image.now }
{
    let (Some(header), Some(root)) = (header_of(image, unit), root_in(shard, unit)) else {
        return Ok(());
    };
    let nodes = UnitNodes::of(shard, unit);
    let home = RangeUnit {
        sections: image.sections(),
        number: unit,
        header,
        addr_base: root.addr_base,
        rnglists_base: root.rnglists_base,
        low: first_low(&nodes),
    };
    home.add_nodes(found, &nodes, linked.entries.as_slice())
}

impl FoundRanges {
    /// Adds the ranges of the unit with this number: those of its root, if it has ranges or low_pc with high_pc, or else those
    /// of its indexed subprograms. Ranges that begin at 0, begin or end too high, or have no byte are left out, and so are
    /// those of a list, or of the end of one, that was read before, whose addresses have units already. The shards are those
    /// of consecutive runs that make up all units of the image's file, and `linked` has what the references of each run give.
    ///
    /// A fault has the joint offset of the entry whose ranges are read: 14 where an index has no base, 15 where a list, an
    /// index or an address leaves its section, or a list has an entry of an unknown kind. What was found isn't used then.
    pub fn add_unit(
        &mut self,
        image: &Image<'_>,
        shards: &[Arc<Shard<'_>>],
        linked: &[Arc<Linked<'_>>],
        unit: u32,
    ) -> Result<(), Stop>
        ensures { AreRead image.now.sections self.old → ForUnit image.now (map arc_value shards.now) (map arc_value linked.now) unit (λ ranges. GivesFor (λ _. IsAdded image.now.sections unit self.old self.new) result ranges) }
    {
        let Some(place) = run_of(shards, unit) else {
            return Ok(());
        };
        match linked.get(place) {
            Some(linked) => add_in_run(self, image, &shards[place], linked, unit),
            None => Ok(()),
        }
    }
}
