//! The node of a leaf, which may lie aside.

ghost use Rattle.std.specs.Prelude.{◌≡◌, true, List};
ghost use Rattle.index_model.specs.declared.place.TextBytes.{TextBytes as TextBytesOf};
ghost use Rattle.index_model.specs.NodeSeen.{node_seen, IsDeclaredIn};
ghost use Rattle.index_model.specs.declared.shard.Node.{Node};
ghost use Rattle.index_model.specs.Leaves.{IsInside, unpacked};

use crate::leaf::Leaf;
use crate::place::TextBytes;
use crate::shard::Node;

/// The node of a leaf.
#[tactic(auto, using(crate::proofs::LeafLaws::of_aside), unfolding(crate::specs::Leaves::unpacked))]
pub(crate) fn unpacked<'f>(bytes: TextBytes<'f>, whole: &[Node<'f>], leaf: &Leaf) -> Node<'f>
    requires { IsInside whole.now leaf.now }
    ensures { node_seen result ≡ unpacked bytes.entry whole.now leaf.now }
{
    if leaf.given.aside() {
        whole[leaf.offset as usize]
    } else {
        leaf.node(bytes)
    }
}

/// The joint offset of the node of a leaf.
#[tactic(auto, using(crate::proofs::LeafLaws::of_aside), unfolding(crate::specs::Leaves::unpacked, crate::specs::Leaves::leaf_seen))]
pub(crate) fn offset_of(whole: &[Node<'_>], leaf: &Leaf) -> u64
    requires { IsInside whole.now leaf.now }
    ensures { (b : TextBytesOf) → result ≡ (unpacked b whole.now leaf.now).facts.offset }
{
    if leaf.given.aside() {
        whole[leaf.offset as usize].offset
    } else {
        u64::from(leaf.offset)
    }
}

/// The number of the unit of the node of a leaf.
#[tactic(auto, using(crate::proofs::LeafLaws::of_aside), unfolding(crate::specs::Leaves::unpacked, crate::specs::Leaves::leaf_seen))]
pub(crate) fn unit_of(whole: &[Node<'_>], leaf: &Leaf) -> u32
    requires { IsInside whole.now leaf.now }
    ensures { (b : TextBytesOf) → result ≡ (unpacked b whole.now leaf.now).facts.unit }
{
    if leaf.given.aside() {
        whole[leaf.offset as usize].unit
    } else {
        leaf.unit
    }
}

/// The tag of the node of a leaf.
#[tactic(auto, using(crate::proofs::LeafLaws::of_aside), unfolding(crate::specs::Leaves::unpacked, crate::specs::Leaves::leaf_seen))]
pub(crate) fn tag_of(whole: &[Node<'_>], leaf: &Leaf) -> u64
    requires { IsInside whole.now leaf.now }
    ensures { (b : TextBytesOf) → result ≡ (unpacked b whole.now leaf.now).facts.tag }
{
    if leaf.given.aside() {
        whole[leaf.offset as usize].tag
    } else {
        u64::from(leaf.tag)
    }
}

/// Whether a few looks tell that the node of a leaf is that of a declaration with this lexical parent, which refers to no other entry.
#[inline(always)]
#[tactic(auto, unfolding(crate::specs::Leaves::unpacked, crate::specs::Leaves::leaf_seen))]
pub(crate) fn is_declared_in(leaf: &Leaf, parent: u64) -> bool
    ensures { result ≡ true → (b : TextBytesOf) (whole : List Node) → IsDeclaredIn parent (unpacked b whole leaf.now) }
{
    leaf.marks.declaration()
        && u64::from(leaf.parent) == parent
        && leaf.given.parent()
        && !leaf.given.next()
        && !leaf.given.aside()
}
