//! A node made small.

ghost use Rattle.std.specs.Prelude.{◌≡◌, ◌<◌, ◌^◌, true, false, is_some, IfSome, IsSome, if◌then◌else◌, Some, None};
ghost use Rattle.index_model.specs.Marks.{is_aside};
ghost use Rattle.index_model.specs.NodeSeen.{node_seen};
ghost use Rattle.index_model.specs.declared.place.TextBytes.{TextBytes as TextBytesOf};
ghost use Rattle.index_model.specs.Leaves.{leaf_seen, small_seen, is_plain, AreSmall, StandsAt};

use crate::given::Given;
use crate::leaf::Leaf;
use crate::marks::NodeFlags;
use crate::nodes_so_far::Places;
use crate::place::{TextBytes, TextInFile};
use crate::shard::{Next, Node};
use crate::small_node::{OwnFacts, SmallNode};

/// The leaf that stands for a node by itself. None where the node says more than a leaf can.
#[tactic(auto, unfolding(crate::specs::Leaves::leaf_seen))]
pub(crate) fn packed(bytes: TextBytes<'_>, node: &Node<'_>, places: Places) -> Option<Leaf>
    ensures alone { IfSome result (λ l. is_aside l.given ≡ false) }
    ensures node { IfSome result (λ l. leaf_seen bytes.entry l ≡ node_seen node.now) }
    ensures fits { is_plain node.now ≡ true → AreSmall node.now → StandsAt bytes.entry.file.now node.now.name places.name → StandsAt bytes.entry.file.now node.now.linkage places.linkage → IsSome result }
{
    if !is_plain(node) {
        return None;
    }
    let name = TextInFile::of(bytes.file, node.name, places.name)?;
    let linkage = TextInFile::of(bytes.file, node.linkage, places.linkage)?;
    let (next, near) = target(node.next)?;
    Some(Leaf {
        offset: u32::try_from(node.offset).ok()?,
        unit: node.unit,
        parent: small(node.parent)?,
        name: name.at,
        linkage: linkage.at,
        next,
        tag: u16::try_from(node.tag).ok()?,
        name_length: name.length,
        linkage_length: linkage.length,
        marks: NodeFlags::of(own_facts(node)),
        given: Given::of(
            node.parent.is_some(),
            name.given,
            linkage.given,
            node.next.is_some(),
            near,
            false,
        ),
    })
}

// What the entry of a node says of itself.
fn own_facts(node: &Node<'_>) -> OwnFacts
    ensures { result ≡ record { declaration = node.now.declaration; external = node.now.external; enum_class = node.now.enum_class; main = node.now.main; address = node.now.address; value = node.now.value } }
{
    OwnFacts {
        declaration: node.declaration,
        external: node.external,
        enum_class: node.enum_class,
        main: node.main,
        address: node.address,
        value: node.value,
    }
}

/// The leaf that stands for a small node by itself. None where a number is too large.
#[inline(always)]
#[tactic(auto, unfolding(crate::specs::Leaves::leaf_seen, crate::specs::Leaves::small_seen))]
pub(crate) fn small_leaf(from: &SmallNode) -> Option<Leaf>
    ensures alone { IfSome result (λ l. is_aside l.given ≡ false) }
    ensures node { IfSome result (λ l. (b : TextBytesOf) → leaf_seen b l ≡ small_seen b.strings.now from.now) }
{
    let (next, near) = target(from.next)?;
    Some(Leaf {
        offset: u32::try_from(from.offset).ok()?,
        unit: from.unit,
        parent: small(from.parent)?,
        name: small(from.name)?,
        linkage: small(from.linkage)?,
        next,
        tag: u16::try_from(from.tag).ok()?,
        name_length: 0,
        linkage_length: 0,
        marks: NodeFlags::of(from.own),
        given: Given::of(
            from.parent.is_some(),
            from.name.is_some(),
            from.linkage.is_some(),
            from.next.is_some(),
            near,
            true,
        ),
    })
}

// Whether the node has no addresses and no signature.
fn is_plain(node: &Node<'_>) -> bool
    ensures { result ≡ is_plain node.now }
{
    node.signature.is_none() && node.low.is_none() && node.high.is_none() && node.ranges.is_none()
}

// The number, 0 where there is none. None where it is too large.
fn small(number: Option<u64>) -> Option<u32>
    ensures number { IfSome result (λ n. (if is_some number then Some n else None) ≡ number) }
    ensures fits { IfSome number (λ n. n < 2 ^ 32) → IsSome result }
{
    u32::try_from(number.unwrap_or(0)).ok()
}

// The target of a reference, and whether it is near. None where it is too large.
fn target(next: Option<Next>) -> Option<(u32, bool)>
    ensures target { IfSome result (λ t. (if is_some next then Some (record { target = t.0; near = t.1 }) else None) ≡ next) }
    ensures fits { IfSome next (λ r. r.target < 2 ^ 32) → IsSome result }
{
    let Some(next) = next else {
        return Some((0, false));
    };
    Some((u32::try_from(next.target).ok()?, next.near))
}
