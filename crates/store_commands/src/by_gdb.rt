//! The index of the entries that gdb lists, of a build.

ghost use Rattle.std.specs.Prelude.{◌≡◌, ◌≤◌, option_map, IfSome, IsOkAnd};
ghost use Rattle.file_image.specs.Images.{image_of};
ghost use Rattle.gdb_index.specs.Indexes.{index_in};
ghost use Rattle.index_board.specs.Boards.{IsImage};
ghost use Rattle.index_forms.specs.declared.form.IndexForm.TheVariants.{ByGdb};
ghost use Rattle.index_model.specs.Faults.{built_of};
ghost use Rattle.index_model.specs.Stages.{cache_written};
ghost use Rattle.stage_core.specs.Outputs.{cache_seen, summary_seen};
ghost use Rattle.store_commands.specs.ByGdb.{IsKept, IsSummaryOf};

use file_image::Image;
use gdb_index::listed_index;
use index_board::Reader;
use index_forms::{GdbVersion, IndexForm};
use index_model::{List, TooLarge, WriteStop};
use index_pool::sections_are_small;
use ix_base::OrMemory;
use stage_core::{Cache, Summary};
use std::alloc::Global;
use std::thread::Threads;

// Main and the addresses are published.
const MAIN_AVAILABLE: u8 = 1;

// The index of the entries that DWARF lists is, too.
const INDEX_WRITTEN: u8 = 3;

/// The stage that a build of a file has to reach before it has what an index in this form is made of. The entries that gdb lists are
/// read of the file itself.
pub(crate) fn stage_for(form: IndexForm) -> u8
    ensures { result ≤ cache_written }
{
    match form {
        IndexForm::ByDwarf(_) => INDEX_WRITTEN,
        IndexForm::ByGdb(_) => MAIN_AVAILABLE,
    }
}

/// The `.gdb_index` of the entries that gdb lists of a file with this image, of what a reader keeps of its build; or that the format
/// can't hold it. None where memory was refused.
pub(crate) fn index_by_gdb<'f, R: Threads + Sync>(
    rt: &R,
    alloc: Global,
    workers: u32,
    image: Option<&Image<'f>>,
    reader: &Reader<'_, 'f>,
    version: GdbVersion,
) -> Option<Cache>
    requires { IsImage (image_of reader.now.board.subject.file) (option_map (λ i. i.now) image) }
    ensures { IfSome result (λ cache. IsOkAnd (built_of reader.now.board.subject.file) (λ b. cache_seen cache ≡ index_in (ByGdb version) b)) }
{
    let parts = reader.parts();
    match (image, &parts.summary) {
        (Some(image), Some(summary)) => {
            index_of_summary(rt, alloc, workers, image, summary, version)
        }
        // A file without an image has a fault, and a build that ended without one has published main, unless it was refused memory.
        _ => None,
    }
}

// The same, of the main program and the addresses that were published.
fn index_of_summary<'f, R: Threads + Sync>(
    rt: &R,
    alloc: Global,
    workers: u32,
    image: &Image<'f>,
    summary: &Summary<'f>,
    version: GdbVersion,
) -> Option<Cache>
    requires { IsSummaryOf image.now (summary_seen summary.now) }
    ensures { IfSome result (λ cache. IsOkAnd (built_of image.now.file) (λ b. cache_seen cache ≡ index_in (ByGdb version) b)) }
{
    // The units are those of the image's file, and lie in sections that are no longer than a file can be.
    sections_are_small(image);
    let _units = image.units();
    let (map, main) = (&summary.map, &summary.main);
    kept(listed_index(rt, alloc, workers, image, map, main, version))
}

// What was written, as an index that is kept.
fn kept(written: Result<Vec<u8>, WriteStop>) -> Option<Cache>
    ensures { IsKept written result }
{
    match written {
        Ok(bytes) => Some(Cache::Gdb(List::of(bytes))),
        Err(OrMemory::Cause(TooLarge)) => Some(Cache::TooLarge),
        Err(OrMemory::Memory) => None,
    }
}
