//! The entries of a file's units, by several threads.

ghost use Rattle.std.specs.Prelude.{◌≤◌, flat_map, length, IfOk};
ghost use Rattle.std.specs.Thread.{IsSync};
ghost use Rattle.gdb_index.specs.Ranges.{AreListed};

use crate::cuts::middle_of;
use crate::file::ReadFile;
use crate::part::list_part;
use index_model::Run;
use ix_base::NoMemory;
use std::alloc::Global;
use std::thread::{Threads, join};

/// The entries of the units with numbers from `first` to below `end`, in runs. The units are halved so often by their bytes, and each
/// part is listed by a thread of its own where one can be started.
#[cycle(halves)]
pub(crate) fn runs_by_halves<'f, R: Threads + Sync>(
    rt: &R,
    alloc: Global,
    halvings: u32,
    file: &ReadFile<'_, 'f>,
    first: u32,
    end: u32,
) -> Result<Vec<Run<'f>>, NoMemory>
    requires order { first ≤ end }
    requires within { end ≤ length file.now.units }
    ensures { IfOk result (λ runs. AreListed file.now.file first end (flat_map (λ run. run) runs.items)) }
{
    if halvings > 0 && end - first >= 2 {
        let middle = middle_of(file.units(), first, end);
        runs_of_halves(rt, alloc, halvings - 1, file, first, middle, end)
    } else {
        one_run(alloc, file, first, end)
    }
}

// The same of both halves, each of which is halved so often.
#[cycle(halves)]
fn runs_of_halves<'f, R: Threads + Sync>(
    rt: &R,
    alloc: Global,
    halvings: u32,
    file: &ReadFile<'_, 'f>,
    first: u32,
    middle: u32,
    end: u32,
) -> Result<Vec<Run<'f>>, NoMemory>
    requires low { first ≤ middle }
    requires high { middle ≤ end }
    requires within { end ≤ length file.now.units }
    ensures { IfOk result (λ runs. AreListed file.now.file first end (flat_map (λ run. run) runs.items)) }
{
    let front = || -> Result<Vec<Run>, NoMemory>
        requires { IsSync R.row × (first ≤ middle) × (middle ≤ length file.now.units) }
        ensures { IfOk result (λ runs. AreListed file.entry.now.file first middle (flat_map (λ run. run) runs.items)) }
    { runs_by_halves(rt, alloc, halvings, file, first, middle) };
    let back = || -> Result<Vec<Run>, NoMemory>
        requires { IsSync R.row × (middle ≤ end) × (end ≤ length file.now.units) }
        ensures { IfOk result (λ runs. AreListed file.entry.now.file middle end (flat_map (λ run. run) runs.items)) }
    { runs_by_halves(rt, alloc, halvings, file, middle, end) };
    let (front, back) = join(rt, front, back);
    let mut runs = front?;
    let mut behind = back?;
    runs.append(&mut behind)?;
    Ok(runs)
}

// The same in one run, by one thread.
fn one_run<'f>(
    alloc: Global,
    file: &ReadFile<'_, 'f>,
    first: u32,
    end: u32,
) -> Result<Vec<Run<'f>>, NoMemory>
    requires order { first ≤ end }
    requires within { end ≤ length file.now.units }
    ensures { IfOk result (λ runs. AreListed file.now.file first end (flat_map (λ run. run) runs.items)) }
{
    let mut runs = Vec::new(alloc);
    runs.push(list_part(alloc, file, first, end)?)?;
    Ok(runs)
}
