//! One kind closes and the next opens. All memory is taken before anything changes.

ghost use Rattle.std.specs.Prelude.{◌≡◌, map, filter_map, length, OnOk, OnErr};
ghost use Rattle.std.specs.Arc.{arc_value};
ghost use Rattle.index_model.specs.declared.job.Job.TheVariants.{Scan, Link, Name};
ghost use Rattle.stage_core.specs.Build.{IsOpen, OpensNext};
ghost use Rattle.stage_core.specs.Inputs.{shard_in, linked_in as link_in, made_by_kind, LinksOf};
ghost use Rattle.stage_core.specs.Tasks.{AreTasks};

use crate::build::Build;
use crate::slots::{cache_in, linked_in, move_runs, shards_in, summary_in, table_in};
use crate::stock::Stock;
use crate::task::{Shards, Task};
use crate::tasks::{Tasks, link_tasks, main_task, name_tasks, place_task, write_task};
use std::alloc::{AllocError, Global};
use std::collections::VecDeque;
use std::sync::Arc;

impl<'f> Build<'f> {
    /// The kind behind the open one opens. All jobs of the open kind are finished, and none brought a fault.
    ///
    /// # Errors
    ///
    /// Where memory was refused nothing has changed.
    pub(crate) fn open_next(&mut self, alloc: Global) -> Result<(), AllocError>
        requires { IsOpen self.old }
        ensures opens { OnOk result (OpensNext self.old self.new) }
        ensures same { OnErr result (self.new ≡ self.old) }
    {
        match &self.stock {
            Stock::Scan => self.open_links(alloc),
            Stock::Link(shards) => {
                let shards = Arc::try_clone(shards)?;
                self.open_main(alloc, shards)
            }
            Stock::Main(shards, linked) => {
                let tasks = name_tasks(alloc, self.runs, shards, linked)?;
                self.open_names(alloc, tasks)
            }
            Stock::Name => self.open_merge(alloc),
            Stock::Merge => self.open_write(alloc),
            Stock::Write => self.close_last(alloc),
            Stock::Nothing => unreachable!(),
        }
    }

    // Link opens.
    fn open_links(&mut self, alloc: Global) -> Result<(), AllocError>
        requires open { IsOpen self.old }
        requires kind { length self.old.progress.closed ≡ 0 }
        ensures opens { OnOk result (OpensNext self.old self.new) }
        ensures same { OnErr result (self.new ≡ self.old) }
    {
        let shards = Arc::new(alloc, shards_in(alloc, self.progress.brought())?)?;
        let tasks = link_tasks(alloc, self.runs, &shards)?;
        self.progress.shut(alloc, self.runs)?;
        self.begin(tasks, Stock::Link(shards));
        Ok(())
    }

    // Main opens.
    fn open_main(&mut self, alloc: Global, shards: Shards<'f>) -> Result<(), AllocError>
        requires open { IsOpen self.old }
        requires kind { length self.old.progress.closed ≡ 1 }
        requires shards { map arc_value (arc_value shards).items ≡ filter_map shard_in (made_by_kind self.old.progress (Scan 0)) }
        ensures opens { OnOk result (OpensNext self.old self.new) }
        ensures same { OnErr result (self.new ≡ self.old) }
    {
        let linked = Arc::new(alloc, linked_in(alloc, self.progress.brought())?)?;
        let tasks = main_task(alloc, &shards, &linked)?;
        self.progress.shut(alloc, 1)?;
        self.begin(tasks, Stock::Main(shards, linked));
        Ok(())
    }

    // Name opens with these tasks, and the summary is published.
    fn open_names(&mut self, alloc: Global, tasks: Tasks<'f>) -> Result<(), AllocError>
        requires open { IsOpen self.old }
        requires kind { length self.old.progress.closed ≡ 2 }
        requires tasks { AreTasks tasks.items self.old.runs
            (λ k. record { job = Name k; given = LinksOf (filter_map shard_in (made_by_kind self.old.progress (Scan 0))) (filter_map link_in (made_by_kind self.old.progress (Link 0))) }) }
        ensures opens { OnOk result (OpensNext self.old self.new) }
        ensures same { OnErr result (self.new ≡ self.old) }
    {
        let summary = summary_in(self.progress.brought())?;
        self.progress.shut(alloc, self.runs)?;
        self.parts.summary = summary;
        self.begin(tasks, Stock::Name);
        Ok(())
    }

    // Merge opens.
    fn open_merge(&mut self, alloc: Global) -> Result<(), AllocError>
        requires open { IsOpen self.old }
        requires kind { length self.old.progress.closed ≡ 3 }
        ensures opens { OnOk result (OpensNext self.old self.new) }
        ensures same { OnErr result (self.new ≡ self.old) }
    {
        let mut runs = Vec::with_capacity(alloc, self.progress.brought().len())?;
        let mut tasks = VecDeque::with_capacity(alloc, 1)?;
        let mut brought = self.progress.close(alloc, 1)?;
        move_runs(&mut brought, &mut runs);
        place_task(&mut tasks, Task::Merge(runs));
        self.begin(tasks, Stock::Merge);
        Ok(())
    }

    // Write opens, and the table is published.
    fn open_write(&mut self, alloc: Global) -> Result<(), AllocError>
        requires open { IsOpen self.old }
        requires kind { length self.old.progress.closed ≡ 4 }
        ensures opens { OnOk result (OpensNext self.old self.new) }
        ensures same { OnErr result (self.new ≡ self.old) }
    {
        let table = table_in(self.progress.brought())?;
        let tasks = write_task(alloc, &self.parts, &table, self.cache)?;
        self.progress.shut(alloc, 1)?;
        self.parts.table = table;
        self.begin(tasks, Stock::Write);
        Ok(())
    }

    // The last kind closes, and the index is published.
    fn close_last(&mut self, alloc: Global) -> Result<(), AllocError>
        requires open { IsOpen self.old }
        requires kind { length self.old.progress.closed ≡ 5 }
        ensures opens { OnOk result (OpensNext self.old self.new) }
        ensures same { OnErr result (self.new ≡ self.old) }
    {
        let cache = cache_in(self.progress.brought())?;
        self.progress.shut(alloc, 0)?;
        self.parts.cache = cache;
        self.tasks.clear();
        self.stock = Stock::Nothing;
        Ok(())
    }

    // The tasks of the kind that opens, and what is kept for those behind it.
    fn begin(&mut self, tasks: Tasks<'f>, stock: Stock<'f>)
        ensures { self.new ≡ record self.old { tasks = tasks.entry; stock = stock.entry } }
    {
        self.tasks = tasks;
        self.stock = stock;
    }
}
