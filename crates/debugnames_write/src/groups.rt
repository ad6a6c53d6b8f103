//! The entries of each name.

ghost use Rattle.std.specs.Prelude.{◌≡◌, ◌≤◌, length, map, sum_by, IfOk};
ghost use Rattle.debugnames_write.specs.Counts.{count_of};
ghost use Rattle.debugnames_write.specs.Names.{kept_of_group, cut};

use crate::item::IndexEntry;
use query_engine::ListedName;
use std::alloc::{AllocError, Global};

/// A name and its entries, in section order.
#[derive(Clone, Copy)]
pub(crate) struct NameEntries<'r> {
    pub name: &'r [u8],
    pub items: &'r [IndexEntry],
}

/// Each of these names with its entries, of one name after the other.
pub(crate) fn groups_of<'r>(
    alloc: Global,
    names: &[ListedName<'r>],
    items: &'r [IndexEntry],
) -> Result<Vec<NameEntries<'r>>, AllocError>
    requires { sum_by count_of names.now ≤ length items.now }
    ensures { IfOk result (λ v. map kept_of_group v.items ≡ cut items.now names.now) }
{
    let mut groups = Vec::with_capacity(alloc, names.len())?;
    let mut start = 0;
    for name in names {
        let end = start + name.count;
        groups.push(NameEntries {
            name: name.name,
            items: &items[start..end],
        })?;
        start = end;
    }
    Ok(groups)
}
