//! Where the index of a program is kept.

ghost use Rattle.std.specs.Prelude.{◌≡◌, option_map, IfOk, IfSome};
ghost use Rattle.reach_model.specs.BuildIds.{IsBuildId};
ghost use Rattle.cached_command.specs.Places.{place_seen, spot_of};

use file_image::Image;
use index_cache::{build_id, cache_name};
use ix_base::NoMemory;
use std::alloc::Global;

/// Where the index of a program is kept.
#[derive(Drop)]
pub(crate) struct KeptFile<'f> {
    /// The program's build-id.
    pub(crate) id: &'f [u8],
    pub(crate) name: String,
}

/// Where the index of a program is kept in a store. None where the program has no image, or no build-id.
pub(crate) fn place_of<'f>(
    alloc: Global,
    image: Option<&Image<'f>>,
    store: &str,
) -> Result<Option<KeptFile<'f>>, NoMemory>
    ensures place { IfOk result (λ place. option_map place_seen place ≡ spot_of (option_map (λ i. i.now) image.entry) store.now) }
    ensures id { IfOk result (λ place. IfSome place (λ p. IsBuildId p.id.now)) }
{
    let Some(image) = image else {
        return Ok(None);
    };
    let Some(id) = build_id(image.sections()) else {
        return Ok(None);
    };
    let name = cache_name(alloc, store, id)?;
    Ok(Some(KeptFile { id, name }))
}
