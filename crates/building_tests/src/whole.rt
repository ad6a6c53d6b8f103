//! What is built of a whole file, as one run.

ghost use Rattle.std.specs.Prelude.{◌≡◌, length, map, IfOk};
ghost use Rattle.std.specs.Arc.{arc_value};
ghost use Rattle.shard_build.specs.Entries.{AreShardsOfFile};
ghost use Rattle.qualified_names.specs.Files.{AreLinkedOfFile};

use file_image::Image;
use index_model::{Linked, Shard};
use parent_resolve::link;
use shard_build::scan;
use std::alloc::Global;
use std::sync::Arc;
use std::test::Fail;

/// The shard of all units.
pub(crate) fn scanned<'f>(alloc: Global, image: &Image<'f>) -> Result<[Arc<Shard<'f>>; 1], Fail>
    ensures { IfOk result (λ shards. AreShardsOfFile image.now (map arc_value shards)) }
{
    let count = image.units().len() as u32;
    let shard = scan(alloc, image, 0, count)?;
    Ok([Arc::new(alloc, shard)?])
}

/// What its references give.
pub(crate) fn linked<'f>(
    alloc: Global,
    image: &Image<'f>,
    shards: &[Arc<Shard<'f>>],
) -> Result<[Arc<Linked<'f>>; 1], Fail>
    requires of_file { AreShardsOfFile image.now (map arc_value shards.now) }
    requires one { length shards.now ≡ 1 }
    ensures { IfOk result (λ linked. AreLinkedOfFile image.now (map arc_value shards.now) (map arc_value linked)) }
{
    let linked = link(alloc, image, shards, 0)?;
    Ok([Arc::new(alloc, linked)?])
}
