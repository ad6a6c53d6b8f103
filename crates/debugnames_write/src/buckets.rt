//! The buckets of the index (DWARF 5, section 6.1.1.4.5).

ghost use Rattle.std.specs.Prelude.{◌≡◌, ◌<◌, length, map, IfOk};
ghost use Rattle.index_model.specs.Layout.{below};
ghost use Rattle.index_model.specs.NameIndex.{bucket};
ghost use Rattle.debugnames_write.specs.Names.{HaveBuckets};
ghost use Rattle.debugnames_write.specs.Seen.{texts};

use crate::name::Name;
use std::alloc::{AllocError, Global};

/// Of each bucket the place of its first name, counted from 1, or 0.
pub(crate) fn buckets_of(alloc: Global, names: &[Name<'_>]) -> Result<Vec<u32>, AllocError>
    requires few { length names.now < 4294967296 }
    requires buckets { HaveBuckets names.now }
    ensures { IfOk result (λ v. v.items ≡ map (bucket (texts names.now)) (below (length names.now))) }
{
    let mut buckets = vec![in alloc; 0u32; names.len()]?;
    for (place, name) in names.iter().enumerate() {
        let first = &mut buckets[name.bucket as usize];
        if *first == 0 {
            *first = (place + 1) as u32;
        }
    }
    Ok(buckets)
}
