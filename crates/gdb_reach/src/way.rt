//! How gdb comes to an item (gdb/dwarf2/read.c, `index_dies`).

ghost use Rattle.std.specs.Prelude.{◌≡◌};
ghost use Rattle.gdb_reach.specs.Ways.{is_looked_at, leads_inside, way_on, way_below, token_around};

use dwarf_codes::tag::DW_TAG_subprogram;
use gdb_entries::{ItemFacts, counts, is_allowed_in};

/// An open item, as the items in it know it.
#[derive(Clone, Copy)]
pub(crate) struct OpenItem {
    pub token: u64,
    pub tag: u64,
}

/// How gdb comes to an item.
#[derive(Clone, Copy)]
pub(crate) struct Way {
    /// The innermost open item around it.
    pub around: Option<OpenItem>,
    /// Whether it stands somewhere in an open subprogram.
    pub inside: bool,
}

/// Whether an item to which gdb comes so is looked at.
pub(crate) fn is_looked_at(way: Option<Way>, item: &ItemFacts) -> bool
    ensures { result ≡ is_looked_at way item.now }
{
    match way {
        Some(way) => is_allowed_in(way.around.map(|open_item| open_item.tag), item.tag)
            && counts(item),
        None => false,
    }
}

// Whether what gdb comes to so stands somewhere in an open subprogram.
fn leads_inside(way: Option<Way>) -> bool
    ensures { result ≡ leads_inside way }
{
    match way {
        Some(way) => way.inside,
        None => false,
    }
}

// How gdb comes to the children of an item to which it comes so. In a subprogram what isn't looked at is gone through.
fn way_on(way: Option<Way>, item: &ItemFacts, is_open: bool, token: u64) -> Option<Way>
    ensures { result ≡ way_on way item.now is_open token }
{
    let inside = leads_inside(way);
    if is_open {
        Some(Way {
            around: Some(OpenItem {
                token,
                tag: item.tag,
            }),
            inside: inside || item.tag == DW_TAG_subprogram,
        })
    } else if inside && !is_looked_at(way, item) {
        way
    } else {
        None
    }
}

/// How gdb comes to the children of an item of this depth, to which it comes so. To those of a root it always does.
pub(crate) fn way_below(
    depth: u32,
    way: Option<Way>,
    item: &ItemFacts,
    is_open: bool,
    token: u64,
) -> Option<Way>
    ensures { result ≡ way_below depth way item.now is_open token }
{
    if depth == 0 {
        Some(Way {
            around: None,
            inside: false,
        })
    } else {
        way_on(way, item, is_open, token)
    }
}

/// The token of the innermost open item around what gdb comes to so.
pub(crate) fn token_around(way: Option<Way>) -> Option<u64>
    ensures { result ≡ token_around way }
{
    match way {
        Some(way) => way.around.map(|open_item| open_item.token),
        None => None,
    }
}
