//! Where an entry of the file is found: among the nodes of a shard, or by the innermost span that holds it.

ghost use Rattle.std.specs.Prelude.{◌≡◌, ◌<◌, ◌==◌, map, length, position, find, Contains, IfSome, option_map, Ok};
ghost use Rattle.std.specs.Arc.{arc_value};
ghost use Rattle.std.specs.List.Sorted.{IsNonDecreasingBy};
ghost use Rattle.index_model.specs.Faults.{program_of};
ghost use Rattle.index_model.specs.NodeSeen.{node_seen};
ghost use Rattle.index_model.specs.Parents.{IsParentAt};
ghost use Rattle.index_model.specs.Program.{Program};
ghost use Rattle.index_model.specs.Shards.{AreShardsOf};
ghost use Rattle.shard_build.specs.Found.{IsFound, IsFoundIn, IsUnitAt, has_unit};

use file_image::Image;
use index_model::{Node, Nodes, Shard, Span};
use std::sync::Arc;

/// What the shards of a file say of the entry at a joint offset.
pub(crate) enum NodeOrSpan<'f> {
    /// The entry has this node.
    Kept(Node<'f>),
    /// The entry has no node. If there is one, its parent is the entry of this span, in which it stands.
    Within(Span),
    /// No entry stands there.
    Nowhere,
}

impl<'f> NodeOrSpan<'f> {
    /// What the shards of all units of the image's file say.
    pub fn of(image: &Image<'f>, shards: &[Arc<Shard<'f>>], offset: u64) -> NodeOrSpan<'f>
        ensures { (p : Program) → program_of image.now.file ≡ Ok p → AreShardsOf p (map arc_value shards.now) → IsFound p offset result }
    {
        let Some(unit) = unit_at(image, offset) else {
            return NodeOrSpan::Nowhere;
        };
        match shard_of(shards, unit) {
            Some(place) => NodeOrSpan::in_shard(&shards[place], offset),
            None => NodeOrSpan::Nowhere,
        }
    }

    // What the shard of the run says in which the entry stands, if there is one.
    fn in_shard(shard: &Shard<'f>, offset: u64) -> NodeOrSpan<'f>
        ensures { IsFoundIn shard.now offset result }
    {
        if let Some(node) = node_at(&shard.nodes, offset) {
            return NodeOrSpan::Kept(node);
        }
        match innermost(shard, offset) {
            Some(span) => NodeOrSpan::Within(span),
            None => NodeOrSpan::Nowhere,
        }
    }
}

/// The number of the unit in which a joint offset stands: the last that begins there or before it. None before the first.
pub fn unit_at(image: &Image<'_>, offset: u64) -> Option<u32>
    ensures { IsUnitAt image.now.file offset result }
{
    let begun = image.units().partition_point(|unit| unit.start <= offset);
    Some(begun.checked_sub(1)? as u32)
}

// The index of the shard whose run has the unit.
fn shard_of(shards: &[Arc<Shard<'_>>], unit: u32) -> Option<usize>
    ensures value { result ≡ position (λ s. has_unit unit (arc_value s)) shards.now }
    ensures within { IfSome result (λ k. k < length shards.now) }
{
    shards.iter().position(|shard| has_unit(shard, unit))
}

// Whether the unit is one of the shard's run. The number of a shard without units says nothing.
fn has_unit(shard: &Shard<'_>, unit: u32) -> bool
    ensures { result ≡ has_unit unit shard.now }
{
    shard.first <= unit && ((unit - shard.first) as usize) < shard.roots.as_slice().len()
}

/// The node at the offset, among nodes whose offsets rise.
pub(crate) fn node_at<'f>(nodes: &Nodes<'f>, offset: u64) -> Option<Node<'f>>
    ensures { IsNonDecreasingBy (λ n. n.facts.offset) nodes.now → option_map node_seen result ≡ find (λ n. n.facts.offset == offset) nodes.now }
{
    let place = nodes.count_before(offset);
    let node = nodes.get(place)?;
    if node.offset == offset {
        Some(node)
    } else {
        None
    }
}

// The innermost span that holds the entry at the offset: the last that begins there or before it and ends behind it.
fn innermost(shard: &Shard<'_>, offset: u64) -> Option<Span>
    ensures parent { IsParentAt shard.now offset (option_map (λ s. s.entry) result) }
    ensures member { IfSome result (Contains shard.now.spans) }
{
    let begun = shard.spans.count_begun(offset);
    shard.spans.last_open(begun, offset)
}
