//! The tasks of the kinds with many jobs.

ghost use Rattle.std.specs.Prelude.{◌≡◌, ◌+◌, ◌++◌, ◌∷◌, ◌<◌, ◌^◌, ℕ, List, [], length, take, flat_map, slice_get, unwrap_or, map, option_map, IfOk};
ghost use Rattle.std.specs.Arc.{arc_value};
ghost use Rattle.std.specs.VecDeque.{deque_len, deque_capacity};
ghost use Rattle.index_model.specs.declared.job.Job.TheVariants.{Scan, Link, Main, Name, Write};
ghost use Rattle.index_model.specs.declared.unit.Unit.{Unit as UnitHeader};
ghost use Rattle.stage_core.specs.Cut.{cut};
ghost use Rattle.stage_core.specs.Inputs.{UnitsOf, ScansOf, LinksOf, PublishedOf, Handed};
ghost use Rattle.stage_core.specs.Outputs.{parts_seen};
ghost use Rattle.stage_core.specs.Tasks.{AreTasks, task_seen};

use crate::output::{Parts, share};
use crate::task::{Links, Shards, Task};
use index_model::CacheKind;
use query_engine::Table;
use std::alloc::{AllocError, Global};
use std::collections::VecDeque;
use std::sync::Arc;

/// The tasks of the open kind that aren't drawn, in their order.
pub(crate) type Tasks<'f> = VecDeque<Task<'f>>;

// One task.
fn only_task<'f>(alloc: Global, task: Task<'f>) -> Result<Tasks<'f>, AllocError>
    ensures { IfOk result (λ tasks. AreTasks tasks.items 1 (λ _. task_seen task.entry)) }
{
    let mut tasks = VecDeque::with_capacity(alloc, 1)?;
    place_task(&mut tasks, task);
    Ok(tasks)
}

/// Places a task behind the others. There is room for it.
pub(crate) fn place_task<'f>(tasks: &mut Tasks<'f>, task: Task<'f>)
    requires { deque_len tasks.old < deque_capacity tasks.old }
    ensures placed { tasks.new.items ≡ tasks.old.items ++ task.entry ∷ [] }
    ensures size { deque_len tasks.new ≡ deque_len tasks.old + 1 }
    ensures room { deque_capacity tasks.new ≡ deque_capacity tasks.old }
{
    let _ = tasks.push_back(task);
}

/// The tasks of the Scan jobs of so many runs of so many units.
pub(crate) fn scan_tasks<'f>(alloc: Global, units: u32, runs: u32) -> Result<Tasks<'f>, AllocError>
    ensures { IfOk result (λ tasks. (us : List (ℕ × UnitHeader)) → length us ≡ units → AreTasks tasks.items runs
        (λ k. record { job = Scan k; given = UnitsOf (length (flat_map (λ run. run) (take k (cut runs us)))) (length (unwrap_or (slice_get (cut runs us) k) [])) })) }
{
    let mut tasks = VecDeque::with_capacity(alloc, runs as usize)?;
    let mut first = 0;
    for run in 0..runs {
        let count = (units - first) / (runs - run);
        tasks.push_back(Task::Scan { run, first, count })?;
        first += count;
    }
    Ok(tasks)
}

/// The tasks of the Link jobs of so many runs.
pub(crate) fn link_tasks<'f>(
    alloc: Global,
    runs: u32,
    shards: &Shards<'f>,
) -> Result<Tasks<'f>, AllocError>
    ensures { IfOk result (λ tasks. AreTasks tasks.items runs
        (λ k. record { job = Link k; given = ScansOf (map arc_value (arc_value shards.now).items) })) }
{
    let mut tasks = VecDeque::with_capacity(alloc, runs as usize)?;
    for run in 0..runs {
        let shards = Arc::try_clone(shards)?;
        place_task(&mut tasks, Task::Link { run, shards });
    }
    Ok(tasks)
}

/// The tasks of the Name jobs of so many runs.
pub(crate) fn name_tasks<'f>(
    alloc: Global,
    runs: u32,
    shards: &Shards<'f>,
    linked: &Links<'f>,
) -> Result<Tasks<'f>, AllocError>
    ensures { IfOk result (λ tasks. AreTasks tasks.items runs
        (λ k. record { job = Name k; given = LinksOf (map arc_value (arc_value shards.now).items) (map arc_value (arc_value linked.now).items) })) }
{
    let mut tasks = VecDeque::with_capacity(alloc, runs as usize)?;
    for run in 0..runs {
        let task = Task::Name {
            run,
            shards: Arc::try_clone(shards)?,
            linked: Arc::try_clone(linked)?,
        };
        place_task(&mut tasks, task);
    }
    Ok(tasks)
}

/// The task of the Main job.
pub(crate) fn main_task<'f>(
    alloc: Global,
    shards: &Shards<'f>,
    linked: &Links<'f>,
) -> Result<Tasks<'f>, AllocError>
    ensures { IfOk result (λ tasks. AreTasks tasks.items 1
        (λ _. record { job = Main; given = LinksOf (map arc_value (arc_value shards.now).items) (map arc_value (arc_value linked.now).items) })) }
{
    let task = Task::Main {
        shards: Arc::try_clone(shards)?,
        linked: Arc::try_clone(linked)?,
    };
    only_task(alloc, task)
}

/// The task of the Write job, which is given what has been published, with this table.
pub(crate) fn write_task<'f>(
    alloc: Global,
    parts: &Parts<'f>,
    table: &Option<Arc<Table<'f>>>,
    kind: CacheKind,
) -> Result<Tasks<'f>, AllocError>
    ensures { IfOk result (λ tasks. AreTasks tasks.items 1
        (λ _. record { job = Write; given = PublishedOf (record (parts_seen parts.now) { table = option_map arc_value table.now }) kind })) }
{
    let mut published = parts.share()?;
    published.table = share(table)?;
    only_task(alloc, Task::Write { published, kind })
}
