//! The ranges of all units of a file.

ghost use Rattle.std.specs.Prelude.{map};
ghost use Rattle.std.specs.Arc.{arc_value};
ghost use Rattle.index_model.specs.Faults.{all_ranges};
ghost use Rattle.index_model.specs.Gives.{GivesFor};
ghost use Rattle.qualified_names.specs.Files.{AreLinkedOfFile, ForLinks};
ghost use Rattle.range_lists.specs.Same.{HaveSameUnits};
ghost use Rattle.index_pool.specs.Files.{AreFirstRanges};

use file_image::Image;
use index_model::{Linked, Shard};
use ix_base::Stop;
use range_lists::FoundRanges;
use std::alloc::Global;
use std::sync::Arc;

/// Ranges that show the same units as the ranges of all units, in section order, or the first fault of these.
pub(crate) fn all_ranges<'f>(
    alloc: Global,
    image: &Image<'f>,
    shards: &[Arc<Shard<'f>>],
    linked: &[Arc<Linked<'f>>],
) -> Result<FoundRanges, Stop>
    requires { AreLinkedOfFile image.now (map arc_value shards.now) (map arc_value linked.now) }
    ensures { ForLinks image.now (λ p ks. GivesFor (λ found rs. HaveSameUnits found.ranges.items rs) result (all_ranges p ks)) }
{
    let mut found = FoundRanges::none(alloc);
    for number in 0..image.units().len() as u32 {
        found.add_unit(image, shards, linked, number)?;
    }
    Ok(found)
}
