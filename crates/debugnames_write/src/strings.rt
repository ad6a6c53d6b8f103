//! The strings that `.debug_str` gets.

ghost use Rattle.std.specs.Prelude.{◌≡◌, flat_map, map, IfOk};
ghost use Rattle.index_model.specs.Layout.{ended};

use crate::groups::NameEntries;
use std::alloc::{AllocError, Global};

/// The names, each with a zero, in so many bytes.
pub(crate) fn strings_of(
    alloc: Global,
    groups: &[NameEntries<'_>],
    size: usize,
) -> Result<Vec<u8>, AllocError>
    ensures { IfOk result (λ v. v.items ≡ flat_map ended (map (λ g. g.name.now) groups.now)) }
{
    let mut strings = Vec::with_capacity(alloc, size)?;
    for group in groups {
        strings.extend_from_slice(group.name)?;
        strings.push(0)?;
    }
    Ok(strings)
}
