//! The groups of entries with one text.

ghost use Rattle.std.specs.Prelude.{◌≡◌, length, IfOk};
ghost use Rattle.query_engine.specs.Groups.{AreGroupsOf};
ghost use Rattle.query_engine.specs.Seen.{texts_seen};

use crate::spelling::FrontedText;
use std::alloc::{AllocError, Global};

/// The entries with one text, by the index of the first one's place and the index behind the last one's, and the front of that
/// text.
#[derive(Clone, Copy)]
pub(crate) struct Group {
    pub front: u64,
    pub start: u32,
    pub end: u32,
}

/// The groups of texts whose places end here. Each begins where the one before it ends.
pub(crate) fn groups_of(
    alloc: Global,
    texts: &[FrontedText<'_>],
    ends: &[u32],
) -> Result<Vec<Group>, AllocError>
    requires { length ends.now ≡ length texts.now }
    ensures { IfOk result (λ v. AreGroupsOf (texts_seen texts.now) ends.now v.items) }
{
    let mut groups = Vec::with_capacity(alloc, texts.len())?;
    let mut start = 0;
    for (k, text) in texts.iter().enumerate() {
        let end = ends[k];
        groups.push(Group {
            front: text.front,
            start,
            end,
        })?;
        start = end;
    }
    Ok(groups)
}
