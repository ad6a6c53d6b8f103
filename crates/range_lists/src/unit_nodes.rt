//! The nodes of one unit.

ghost use Rattle.std.specs.Prelude.{◌≡◌, ◌+◌, ◌<◌, ◌^◌, length, slice_index_or};
ghost use Rattle.index_model.specs.NodeSeen.{node_seen};
ghost use Rattle.index_model.specs.ShardLanguages.{NodesRise};
ghost use Rattle.range_lists.specs.Units.{facts_in, unit_nodes};

use index_model::{Node, Nodes, Shard};
use std::marker::Model;

/// The nodes of a unit among those of its shard. Contracts see them as a list, without their texts.
#[derive(Drop)]
pub(crate) struct UnitNodes<'a, 'f> {
    nodes: &'a Nodes<'f>,
    from: usize,
    to: usize,
}

impl<'a, 'f> Model for UnitNodes<'a, 'f> {
    ghost use Rattle.std.specs.Prelude.{◌-◌, ◌<◌, ◌≤◌, ◌^◌, List, drop, length, take};
    ghost use Rattle.index_model.specs.declared.shard.Node.{Node};
    ghost use Rattle.range_lists.specs.Units.{facts_in};

    ghost Value = { List Node };

    ghost view = { λ u. facts_in (take (u.to - u.from) (drop u.from u.nodes.now)) };

    ghost invariant = { λ u. (u.to ≤ length u.nodes.now) × (u.to < 2 ^ 64) };
}

impl<'a, 'f> UnitNodes<'a, 'f> {
    /// The nodes of a unit.
    pub(crate) fn of(shard: &'a Shard<'f>, unit: u32) -> UnitNodes<'a, 'f>
        requires { unit + 1 < 2 ^ 32 }
        ensures { NodesRise shard.now → result ≡ unit_nodes unit (facts_in shard.now.nodes) }
    {
        UnitNodes {
            nodes: &shard.nodes,
            from: shard.nodes.count_of_units_before(unit),
            to: shard.nodes.count_of_units_before(unit + 1),
        }
    }

    /// How many they are.
    pub(crate) fn len(&self) -> usize
        ensures { result ≡ length self.now }
    {
        self.to.saturating_sub(self.from)
    }

    /// The node at an index, without its texts.
    pub(crate) fn node(&self, index: usize) -> Node<'f>
        requires { index < length self.now }
        ensures { result ≡ slice_index_or self.now index result }
    {
        match self.nodes.get(self.from + index) {
            Some(node) => without_texts(node),
            None => unreachable!(),
        }
    }
}

// A node without its texts.
fn without_texts(node: Node<'_>) -> Node<'_>
    ensures { result ≡ (node_seen node.entry).facts }
{
    let mut bare = node;
    bare.name = None;
    bare.linkage = None;
    bare
}
