//! Main, and the unit at each address.

ghost use Rattle.std.specs.Prelude.{map};
ghost use Rattle.std.specs.Arc.{arc_value};
ghost use Rattle.index_model.specs.Faults.{all_ranges};
ghost use Rattle.index_model.specs.Gives.{GivesFor};
ghost use Rattle.stage_core.specs.Outputs.{summary_seen};
ghost use Rattle.qualified_names.specs.Files.{AreLinkedOfFile, ForLinks};
ghost use Rattle.index_pool.specs.Files.{IsSummaryOf};

use crate::ranges::all_ranges;
use address_map::AddressMap;
use file_image::Image;
use index_model::{Linked, Shard};
use ix_base::Stop;
use qualified_names::main_of;
use stage_core::Summary;
use std::alloc::Global;
use std::sync::Arc;

/// The main program and the map of all ranges of the file, or the first fault of the ranges.
pub(crate) fn summary<'f>(
    alloc: Global,
    image: &Image<'f>,
    shards: &[Arc<Shard<'f>>],
    linked: &[Arc<Linked<'f>>],
) -> Result<Summary<'f>, Stop>
    requires { AreLinkedOfFile image.now (map arc_value shards.now) (map arc_value linked.now) }
    ensures { ForLinks image.now (λ p ks. GivesFor (λ m rs. IsSummaryOf image.now (summary_seen m) rs) result (all_ranges p ks)) }
{
    let found = all_ranges(alloc, image, shards, linked)?;
    let map = AddressMap::build(alloc, found.ranges())?;
    let main = main_of(alloc, image, shards, linked)?;
    Ok(Summary { main, map })
}
