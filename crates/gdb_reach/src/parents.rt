//! What is kept of items with children: the last one of each depth.

ghost use Rattle.std.specs.Prelude.{◌≡◌, OnOk, OnErr, if◌then◌else◌, ◌==◌, ℕ, Some};
ghost use Rattle.gdb_reach.specs.Parents.{way_in, innermost_in, token_in, parent_in, parent_at};

use crate::way::{Way, way_below};
use gdb_entries::ItemFacts;
use ix_base::NoMemory;

/// An item with children, as what stands in it knows it.
#[derive(Clone, Copy)]
pub(crate) struct ParentItem {
    pub token: u64,
    /// How gdb comes to its children.
    pub way: Option<Way>,
    /// The token of the innermost open item around its children, whether or not gdb comes to them.
    pub innermost: Option<u64>,
}

/// How gdb comes to what stands in an item. To a root it doesn't.
pub(crate) fn way_in(parent: Option<ParentItem>) -> Option<Way>
    ensures { result ≡ way_in parent }
{
    parent?.way
}

/// The token of the innermost open item around what stands in an item.
pub(crate) fn innermost_in(parent: Option<ParentItem>) -> Option<u64>
    ensures { result ≡ innermost_in parent }
{
    parent?.innermost
}

/// The token of an item, if there is one.
pub(crate) fn token_in(parent: Option<ParentItem>) -> Option<u64>
    ensures { result ≡ token_in parent }
{
    parent.map(|parent| parent.token)
}

/// An item of this depth, which stands in the one above it, as what stands in it knows it.
pub(crate) fn parent_in(
    above: Option<ParentItem>,
    depth: u32,
    item: &ItemFacts,
    is_open: bool,
    token: u64,
) -> ParentItem
    ensures { result ≡ parent_in above depth item.now is_open token }
{
    let way = way_below(depth, way_in(above), item, is_open, token);
    let innermost = if is_open {
        Some(token)
    } else {
        innermost_in(above)
    };
    ParentItem {
        token,
        way,
        innermost,
    }
}

/// Keeps an item with children at its depth.
pub(crate) fn set_parent(
    parents: &mut Vec<Option<ParentItem>>,
    depth: u32,
    parent: ParentItem,
) -> Result<(), NoMemory>
    ensures ok { OnOk result ((other : ℕ) → parent_at parents.new.items other ≡ (if other == depth then Some parent else parent_at parents.old.items other)) }
    ensures err { OnErr result (parents.new.items ≡ parents.old.items) }
{
    let depth = depth as usize;
    if parents.len() <= depth {
        parents.resize(depth + 1, None)?;
    }
    parents[depth] = Some(parent);
    Ok(())
}
