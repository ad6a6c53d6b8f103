//! The index that the core asks for is written, of what it has published.

ghost use Rattle.std.specs.Prelude.{◌≡◌, ◌⊎◌, IfSome, IsOkAnd, option_map};
ghost use Rattle.index_model.specs.Cache.{cache_in};
ghost use Rattle.index_model.specs.Faults.{built_of};
ghost use Rattle.index_model.specs.declared.job.CacheKind.TheVariants.{Names};
ghost use Rattle.index_model.specs.Seen.{main_seen};
ghost use Rattle.stage_core.specs.Outputs.{cache_seen, output_seen, summary_seen};
ghost use Rattle.index_pool.specs.Written.{ArePublished, IsIndexOf, kind_of_version};

use crate::outputs::{gdb_cache, names_cache, of_cache};
use crate::sizes::sections_are_small;
use file_image::Image;
use index_model::{CacheKind, Main, MainName};
use query_engine::Table;
use stage_core::{Cache, Output, Summary};
use std::alloc::Global;
use std::thread::Threads;

/// The index of the asked kind, of what a build of the image's file has published; or that its format can't hold it, or want of
/// memory.
pub(crate) fn write_index<'f, R: Threads + Sync>(
    rt: &R,
    alloc: Global,
    image: &Image<'f>,
    summary: &Summary<'f>,
    table: &Table<'f>,
    kind: CacheKind,
) -> Output<'f>
    requires { ArePublished image.now (summary_seen summary.now) table.now }
    ensures { IsIndexOf image.now kind (output_seen result) }
{
    match kind {
        CacheKind::Gdb8 => gdb_index(alloc, image, summary, table, 8),
        CacheKind::Gdb9 => gdb_index(alloc, image, summary, table, 9),
        CacheKind::Names => name_index(rt, alloc, image, summary, table),
    }
}

// A `.gdb_index` of version 8 or 9.
fn gdb_index<'f>(
    alloc: Global,
    image: &Image<'f>,
    summary: &Summary<'f>,
    table: &Table<'f>,
    version: u8,
) -> Output<'f>
    requires published { ArePublished image.now (summary_seen summary.now) table.now }
    requires version { (version ≡ 8) ⊎ (version ≡ 9) }
    ensures { IsIndexOf image.now (kind_of_version version) (output_seen result) }
{
    sections_are_small(image);
    let units = image.units();
    let main = main_name(&summary.main);
    let written = gdbindex_write::write(alloc, units, &summary.map, main, table, version);
    of_cache(alloc, gdb_cache(written))
}

/// A `.debug_names` and the strings that it adds, of what a build of the image's file has published; or that the format can't hold
/// them, or want of memory.
pub fn name_index<'f, R: Threads + Sync>(
    rt: &R,
    alloc: Global,
    image: &Image<'f>,
    summary: &Summary<'f>,
    table: &Table<'f>,
) -> Output<'f>
    requires { ArePublished image.now (summary_seen summary.now) table.now }
    ensures { IsIndexOf image.now Names (output_seen result) }
{
    of_cache(alloc, name_cache(rt, alloc, image, summary, table))
}

/// The index that `name_index` brings. None where memory was refused.
pub fn name_cache<'f, R: Threads + Sync>(
    rt: &R,
    alloc: Global,
    image: &Image<'f>,
    summary: &Summary<'f>,
    table: &Table<'f>,
) -> Option<Cache>
    requires { ArePublished image.now (summary_seen summary.now) table.now }
    ensures { IfSome result (λ cache. IsOkAnd (built_of image.now.file) (λ b. cache_seen cache ≡ cache_in Names b)) }
{
    sections_are_small(image);
    let units = image.units();
    let old_strings = image.sections().get(b".debug_str").len() as u64;
    names_cache(debugnames_write::write(rt, alloc, units, old_strings, table))
}

// The main program, its name borrowed.
fn main_name<'r>(main: &'r Option<Main<'_>>) -> Option<MainName<'r>>
    ensures { option_map main_seen result ≡ main.now }
{
    match main {
        Some(main) => Some(MainName {
            language: main.language,
            name: main.name.bytes(),
        }),
        None => None,
    }
}
