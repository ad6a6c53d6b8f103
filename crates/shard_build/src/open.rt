//! Entries whose children are still to come.

ghost use Rattle.std.specs.Prelude.{◌≡◌, option_map, reverse};
ghost use Rattle.shard_build.specs.Kept.{innermost, is_visited_in, role_of};

use entry_rules::visited;
use index_model::Parent;

/// An entry whose children are still to come.
#[derive(Clone, Copy)]
pub(crate) struct Open {
    /// Its joint offset.
    pub at: u64,
    /// What it is to its children.
    pub parent: Parent,
    /// The index of its span.
    pub span: usize,
}

/// The innermost of the open entries, the outermost of which stands first.
pub(crate) fn innermost(opened: &Vec<Open>) -> Option<Open>
    ensures { result ≡ innermost (reverse opened.now.items) }
{
    opened.last().copied()
}

/// The joint offset of an open entry, if there is one.
pub(crate) fn offset_of(outer: Option<Open>) -> Option<u64>
    ensures { result ≡ option_map (λ o. o.at) outer }
{
    match outer {
        None => None,
        Some(open) => Some(open.at),
    }
}

/// Whether an entry with this lexical parent is visited. A root has none.
pub(crate) fn is_visited_in(outer: Option<Open>, ada: bool) -> bool
    ensures { result ≡ is_visited_in outer ada }
{
    match outer {
        None => false,
        Some(open) => visited(open.parent, ada),
    }
}

/// What an entry is to its children.
pub(crate) fn role_of(depth: u32, tag: u64, visited: bool) -> Parent
    ensures { result ≡ role_of depth tag visited }
{
    if depth == 0 {
        Parent::Root
    } else if visited {
        Parent::Seen(tag)
    } else {
        Parent::Other
    }
}
