//! Which entries of a shard are visited.
//!
//! Of the entries whose tags an index may list a shard keeps those that may be visited: there a partial unit without a language
//! counts as Ada, since the unit that imports it may be in Ada (DWARF 5, section 3.2.5). In all other units what is kept below
//! the root is what is visited. Each tag that opens its children to visits is one that an index may list.

ghost use Rattle.std.specs.Prelude.{◌≡◌, IfSome, IsNone};
ghost use Rattle.std.specs.List.Sorted.{IsNonDecreasingBy};
ghost use Rattle.index_model.specs.NodeSeen.{node_seen};
ghost use Rattle.index_model.specs.ShardLanguages.{root_in};
ghost use Rattle.parent_resolve.specs.Visits.{HasNoneAt, IsNodeAt, IsVisitedBy, takes_importers_class};

use crate::importers::takes_importers_language;
use entry_rules::visited;
use index_model::{Node, Nodes, Parent, Shard, root_in};

/// Whether an entry that the shard keeps is visited, in a unit whose class is Ada or isn't.
pub(crate) fn is_visited(shard: &Shard<'_>, node: &Node<'_>, ada: bool) -> bool
    ensures { IsVisitedBy shard.now node.now ada result }
{
    if takes_importers_class(shard, node.unit) {
        is_visited_upwards(shard, node, ada)
    } else {
        // What the shard keeps below the root may be visited.
        node.parent.is_some()
    }
}

// Whether the class of a unit is that of the unit that imports it.
fn takes_importers_class(shard: &Shard<'_>, unit: u32) -> bool
    ensures { result ≡ takes_importers_class (root_in unit shard.now) }
{
    match root_in(shard, unit) {
        Some(root) => takes_importers_language(&root),
        None => true,
    }
}

// Whether all entries above it but the root open their children.
fn is_visited_upwards(shard: &Shard<'_>, node: &Node<'_>, ada: bool) -> bool
    ensures { IsVisitedBy shard.now node.now ada result }
{
    let mut parent = node.parent;
    // The entries above stand before it.
    let mut before = shard.nodes.len();
    while let Some(offset) = parent {
        let Some((place, above)) = node_at(&shard.nodes, before, offset) else {
            return false;
        };
        if above.parent.is_none() {
            return true;
        }
        if !visited(Parent::Seen(above.tag), ada) {
            return false;
        }
        parent = above.parent;
        before = place;
    }
    false
}

// The node at an offset with its place, if there is one before this place.
fn node_at<'f>(nodes: &Nodes<'f>, before: usize, offset: u64) -> Option<(usize, Node<'f>)>
    ensures found { IfSome result (λ x. IsNodeAt nodes.now before offset x.0 (node_seen x.1)) }
    ensures none { IsNone result → IsNonDecreasingBy (λ n. n.facts.offset) nodes.now → HasNoneAt nodes.now before offset }
{
    let place = nodes.count_before(offset);
    if before <= place {
        return None;
    }
    let node = nodes.get(place)?;
    if node.offset == offset {
        Some((place, node))
    } else {
        None
    }
}
