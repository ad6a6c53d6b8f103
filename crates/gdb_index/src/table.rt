//! The table of all entries of a file.

ghost use Rattle.std.specs.Prelude.{◌≡◌, ◌≤◌, IfOk};
ghost use Rattle.gdb_entries.specs.Entries.{listed};
ghost use Rattle.gdb_entries.specs.Files.{ForProgram, HasProgram};

use crate::few::are_few;
use crate::file::ReadFile;
use crate::halves::runs_by_halves;
use file_image::Image;
use ix_base::NoMemory;
use query_engine::Table;
use std::alloc::Global;
use std::thread::Threads;

// So many parts for each worker, since they take unequal times.
const PARTS_PER_WORKER: usize = 4;

// There are 256 parts at most.
const MOST_HALVINGS: u32 = 8;

/// The table of all entries of a file without a fault, as gdb lists them (gdb/dwarf2/index-write.c, `write_cooked_index`).
///
/// For more than one worker the units are halved by their bytes until there are about four parts for each, 256 at most, and each part
/// is listed by a thread of its own where one can be started. The table is the same for any number of threads.
///
/// # Errors
///
/// `NoMemory` where memory was refused, or where there are 4,294,967,296 entries or more.
pub fn listed_table<'f, R: Threads + Sync>(
    rt: &R,
    alloc: Global,
    workers: usize,
    image: &Image<'f>,
) -> Result<Table<'f>, NoMemory>
    requires { HasProgram image.now.file }
    ensures { ForProgram image.now.file (λ p. IfOk result (λ t. t ≡ listed p)) }
{
    let file = ReadFile::of(rt, alloc, workers, image)?;
    let count = file.units().len() as u32;
    let runs = runs_by_halves(rt, alloc, halvings_for(workers), &file, 0, count)?;
    if !are_few(&runs) {
        return Err(NoMemory);
    }
    Table::merge(rt, alloc, runs)
}

// How often to halve the units for so many workers.
fn halvings_for(workers: usize) -> u32
    ensures alone { workers ≤ 1 → result ≡ 0 }
    ensures most { result ≤ 8 }
{
    if workers <= 1 {
        return 0;
    }
    workers
        .saturating_mul(PARTS_PER_WORKER)
        .ilog2()
        .min(MOST_HALVINGS)
}
