//! A job is done.

ghost use Rattle.stage_core.specs.Outputs.{output_seen};
ghost use Rattle.stage_core.specs.Tasks.{task_seen};
ghost use Rattle.index_pool.specs.Drawn.{IsDrawn, IsOutputFor};

use crate::outputs::{of_link, of_main, of_merge, of_name, of_scan};
use crate::sizes::sections_are_small;
use crate::summary::summary;
use crate::write::write_index;
use file_image::Image;
use parent_resolve::link;
use qualified_names::run_of;
use query_engine::Table;
use shard_build::scan;
use stage_core::{Output, Task};
use std::alloc::Global;
use std::thread::Threads;

/// Does a job that a core of the image's file handed out. The output is one for the job: what the definitions give for it, its
/// first fault, or want of memory.
pub fn perform<'f, R: Threads + Sync>(
    rt: &R,
    alloc: Global,
    image: &Image<'f>,
    task: Task<'f>,
) -> Output<'f>
    requires { IsDrawn image.now (task_seen task) }
    ensures { IsOutputFor image.now (task_seen task.entry) (output_seen result) }
{
    match task {
        Task::Scan { first, count, .. } => of_scan(alloc, scan(alloc, image, first, count)),
        Task::Link { run, shards } => of_link(alloc, link(alloc, image, &shards, run as usize)),
        Task::Main { shards, linked } => of_main(alloc, summary(alloc, image, &shards, &linked)),
        Task::Name {
            run,
            shards,
            linked,
        } => of_name(run_of(alloc, image, &shards, &linked, run as usize)),
        Task::Merge(runs) => {
            sections_are_small(image);
            of_merge(alloc, Table::merge(rt, alloc, runs))
        }
        Task::Write { published, kind } => {
            let (Some(summary), Some(table)) = (&published.summary, &published.table) else {
                unreachable!();
            };
            write_index(rt, alloc, image, summary, table, kind)
        }
    }
}
