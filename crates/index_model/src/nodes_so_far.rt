//! Nodes that are still added to.

ghost use Rattle.std.specs.Prelude.{◌≡◌, [], IfOk, OnOk, if◌then◌else◌};
ghost use Rattle.index_model.specs.Leaves.{small_seen};
ghost use Rattle.index_model.specs.NodeSeen.{node_seen, with_node};

use crate::leaf::Leaf;
use crate::nodes::Nodes;
use crate::packing::{packed, small_leaf};
use crate::place::TextBytes;
use crate::shard::Node;
use crate::small_node::SmallNode;
use ix_base::NoMemory;
use std::alloc::Global;
use std::marker::Model;

/// Where in the file the texts of a node are thought to stand. Nothing rests on it but how few bytes the node takes.
#[derive(Clone, Copy)]
pub struct Places {
    pub name: u64,
    pub linkage: u64,
}

/// Nodes, in the order in which they were added. Contracts see them with the strings that texts may be.
#[derive(Drop)]
pub struct NodesSoFar<'f> {
    bytes: TextBytes<'f>,
    // One of each node.
    leaves: Vec<Leaf>,
    // The nodes that lie aside.
    whole: Vec<Node<'f>>,
}

impl<'f> Model for NodesSoFar<'f> {
    ghost use Rattle.std.specs.Prelude.{map, All};
    ghost use Rattle.index_model.specs.NodeSeen.{NodesGrown};
    ghost use Rattle.index_model.specs.Leaves.{unpacked, IsInside};

    ghost Value = { NodesGrown };

    ghost view = { λ n. record { strings = n.bytes.strings.now; nodes = map (unpacked n.bytes n.whole.items) n.leaves.items } };

    ghost invariant = { λ n. All (IsInside n.whole.items) n.leaves.items };
}

impl<'f> NodesSoFar<'f> {
    /// No nodes of a file.
    pub fn new(alloc: Global, bytes: TextBytes<'f>) -> NodesSoFar<'f>
        ensures { result ≡ record { strings = bytes.entry.strings.now; nodes = [] } }
    {
        NodesSoFar {
            bytes,
            leaves: Vec::new(alloc),
            whole: Vec::new(alloc),
        }
    }

    #[tactic(auto, using(crate::proofs::LeafLaws::added_alone, crate::proofs::LeafLaws::added_aside))]
    /// Adds a node behind the others. It takes 32 bytes where its texts stand at their places, its numbers are small, and
    /// it has no addresses and no signature; else it takes many more.
    pub fn push(&mut self, node: &Node<'f>, places: Places) -> Result<(), NoMemory>
        ensures { OnOk result (self.new ≡ with_node self.old (node_seen node.now)) }
    {
        if let Some(leaf) = packed(self.bytes, node, places) {
            self.leaves.push(leaf)?;
        } else {
            let index = u32::try_from(self.whole.len()).map_err(|_| NoMemory)?;
            self.whole.push(*node)?;
            self.leaves.push(Leaf::aside(index))?;
        }
        Ok(())
    }

    /// Adds a small node behind the others. False where a number of it is too large: then there are the same nodes as before.
    #[inline(always)]
    #[tactic(auto, using(crate::proofs::LeafLaws::added_alone))]
    pub fn push_small(&mut self, node: &SmallNode) -> Result<bool, NoMemory>
        ensures { IfOk result (λ added. self.new ≡ (if added then with_node self.old (small_seen self.old.strings node.now) else self.old)) }
    {
        let Some(leaf) = small_leaf(node) else {
            return Ok(false);
        };
        self.leaves.push(leaf)?;
        Ok(true)
    }

    /// The nodes that were added.
    pub fn finish(self) -> Nodes<'f>
        ensures { result ≡ self.entry.nodes }
    {
        let NodesSoFar {
            bytes,
            leaves,
            whole,
        } = self;
        Nodes::of(bytes, whole, leaves)
    }
}
