//! The nodes of a shard, small.
//!
//! There are millions of nodes, and most have small numbers and no addresses. So 32 bytes are kept of each, with its texts by
//! where they stand, and a node of which they can't say all lies aside, whole.

ghost use Rattle.std.specs.Prelude.{◌≡◌, true, All, IfSome, length, map, slice_get, option_map};
ghost use Rattle.index_model.specs.Leaves.{unpacked, IsInside};
ghost use Rattle.index_model.specs.NodeSeen.{node_seen, IsDeclaredIn};

use crate::leaf::Leaf;
use crate::place::TextBytes;
use crate::shard::Node;
use crate::unpacking::{is_declared_in, offset_of, tag_of, unit_of, unpacked};
use std::marker::Model;

/// Nodes, in the order in which they were added. Contracts see them as a list, each with the bytes of its texts.
#[derive(Drop)]
pub struct Nodes<'f> {
    bytes: TextBytes<'f>,
    // One of each node.
    leaves: Vec<Leaf>,
    // The nodes that lie aside.
    whole: Vec<Node<'f>>,
}

impl<'f> Model for Nodes<'f> {
    ghost use Rattle.std.specs.Prelude.{List, map, All};
    ghost use Rattle.index_model.specs.NodeSeen.{NodeSeen};
    ghost use Rattle.index_model.specs.Leaves.{unpacked, IsInside};

    ghost Value = { List NodeSeen };

    ghost view = { λ n. map (unpacked n.bytes n.whole.items) n.leaves.items };

    ghost invariant = { λ n. All (IsInside n.whole.items) n.leaves.items };
}

impl<'f> Nodes<'f> {
    // Those of these leaves.
    pub(crate) fn of(bytes: TextBytes<'f>, whole: Vec<Node<'f>>, leaves: Vec<Leaf>) -> Nodes<'f>
        requires { All (IsInside whole.items) leaves.items }
        ensures { result ≡ map (unpacked bytes.entry whole.entry.items) leaves.items }
    {
        Nodes {
            bytes,
            leaves,
            whole,
        }
    }

    /// How many nodes there are.
    pub fn len(&self) -> usize
        ensures { result ≡ length self.now }
    {
        self.leaves.len()
    }

    /// The node with this index.
    pub fn get(&self, index: usize) -> Option<Node<'f>>
        ensures { option_map node_seen result ≡ slice_get self.now index }
    {
        let leaf = self.leaves.get(index)?;
        Some(unpacked(self.bytes, &self.whole, leaf))
    }

    /// Whether a few looks tell that the node with this index is that of a declaration inside the entry at a joint offset, which
    /// refers to no other entry. There are many, and no index lists them.
    #[inline(always)]
    pub fn is_declared_in(&self, index: usize, parent: u64) -> bool
        ensures { result ≡ true → IfSome (slice_get self.now index) (IsDeclaredIn parent) }
    {
        match self.leaves.get(index) {
            Some(leaf) => is_declared_in(leaf, parent),
            None => false,
        }
    }

    /// The joint offset of the node with this index.
    pub fn offset_at(&self, index: usize) -> Option<u64>
        ensures { result ≡ option_map (λ n. n.facts.offset) (slice_get self.now index) }
    {
        let leaf = self.leaves.get(index)?;
        Some(offset_of(&self.whole, leaf))
    }

    /// The number of the unit of the node with this index.
    pub fn unit_at(&self, index: usize) -> Option<u32>
        ensures { result ≡ option_map (λ n. n.facts.unit) (slice_get self.now index) }
    {
        let leaf = self.leaves.get(index)?;
        Some(unit_of(&self.whole, leaf))
    }

    /// The tag of the node with this index.
    pub fn tag_at(&self, index: usize) -> Option<u64>
        ensures { result ≡ option_map (λ n. n.facts.tag) (slice_get self.now index) }
    {
        let leaf = self.leaves.get(index)?;
        Some(tag_of(&self.whole, leaf))
    }
}
