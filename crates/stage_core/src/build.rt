//! A build: its state, the tasks that are left and what has been published.

ghost use Rattle.std.specs.Prelude.{◌≡◌, ◌<◌, true, false, is_none, length, option_map, IfOk, if◌then◌else◌};
ghost use Rattle.std.specs.List.{list_any};
ghost use Rattle.index_model.specs.Machine.{Refused, Stopped, place_of_job, is_going, level, stage, plan_for, machine_start, refused_start};
ghost use Rattle.index_model.specs.MachineEvents.{after_draw, after_finish, decided, is_running, next_job};
ghost use Rattle.stage_core.specs.Build.{Fits, IsOpen, SameSubject, subject_of, plan_of_build};
ghost use Rattle.stage_core.specs.Cut.{units_in};
ghost use Rattle.stage_core.specs.Inputs.{handed};
ghost use Rattle.stage_core.specs.Outputs.{output_seen};
ghost use Rattle.stage_core.specs.Place.{place_seen};
ghost use Rattle.stage_core.specs.Tasks.{task_seen};

use crate::output::{Output, Parts};
use crate::place::{Place, place_of};
use crate::progress::Progress;
use crate::stock::Stock;
use crate::task::Task;
use crate::tasks::{Tasks, scan_tasks};
use index_model::{CacheKind, Job};
use ix_base::Fault;
use std::alloc::{AllocError, Global};
use std::collections::VecDeque;

// The stage of a refused file.
const REFUSED: u8 = 4;
// The stage once memory was wanted.
const STOPPED: u8 = 5;

/// A build of an index of a file, whose units are cut into so many runs.
#[derive(Drop)]
pub(crate) struct Build<'f> {
    pub file: &'f [u8],
    pub runs: u32,
    pub cache: CacheKind,
    pub progress: Progress<'f>,
    pub stock: Stock<'f>,
    pub tasks: Tasks<'f>,
    pub parts: Parts<'f>,
}

impl<'f> Build<'f> {
    /// A build of a file with so many units, all of whose Scan jobs can be drawn.
    pub fn start(
        alloc: Global,
        file: &'f [u8],
        units: u32,
        runs: u32,
        cache: CacheKind,
    ) -> Result<Build<'f>, AllocError>
        requires { length (units_in file.now) ≡ units }
        ensures file { IfOk result (λ b. b.file ≡ file.entry) }
        ensures runs { IfOk result (λ b. b.runs ≡ runs) }
        ensures cache { IfOk result (λ b. b.cache ≡ cache) }
        ensures state { IfOk result (λ b. b.progress ≡ machine_start (plan_for runs)) }
        ensures fits { IfOk result Fits }
    {
        let progress = Progress::start(alloc, runs)?;
        let tasks = scan_tasks(alloc, units, runs)?;
        Ok(Build {
            file,
            runs,
            cache,
            progress,
            stock: Stock::Scan,
            tasks,
            parts: Parts::none(),
        })
    }

    /// A build without jobs, of a file that is refused from the start.
    pub fn refused(alloc: Global, file: &'f [u8], fault: Fault, cache: CacheKind) -> Build<'f>
        ensures file { result.file ≡ file.entry }
        ensures runs { result.runs ≡ 0 }
        ensures cache { result.cache ≡ cache }
        ensures state { result.progress ≡ refused_start fault }
        ensures fits { Fits result }
    {
        let mut parts = Parts::none();
        parts.fault = Some(fault);
        Build {
            file,
            runs: 0,
            cache,
            progress: Progress::refused(alloc, fault),
            stock: Stock::Scan,
            tasks: VecDeque::new(alloc),
            parts,
        }
    }

    /// Draws the next job.
    pub fn draw(&mut self) -> Option<Task<'f>>
        requires { Fits self.old }
        ensures state { self.new.progress ≡ after_draw self.old.progress }
        ensures task { option_map task_seen result ≡ option_map (handed (subject_of self.old) self.old.progress) (next_job (plan_of_build self.old) self.old.progress) }
        ensures fits { Fits self.new }
        ensures subject { SameSubject self.old self.new }
    {
        let task = self.tasks.pop_front()?;
        self.progress.draw();
        Some(task)
    }

    /// The level that the last of the closed kinds brought.
    pub fn level(&self) -> u8
        requires { Fits self.now }
        ensures { result ≡ level (plan_of_build self.now) self.now.progress }
    {
        match self.stock {
            Stock::Scan | Stock::Link(_) | Stock::Main(..) => 0,
            Stock::Name | Stock::Merge => 1,
            Stock::Write => 2,
            Stock::Nothing => 3,
        }
    }

    /// The stage: 4 where the file is refused and 5 where the machine is stopped, else the level.
    pub fn stage(&self) -> u8
        requires { Fits self.now }
        ensures { result ≡ stage (plan_of_build self.now) self.now.progress }
    {
        if self.progress.is_stopped() {
            return STOPPED;
        }
        if self.progress.is_going() {
            return self.level();
        }
        REFUSED
    }

    /// Takes what a job brought. Answers whether memory was refused here.
    pub fn finish(&mut self, alloc: Global, job: Job, output: Output<'f>) -> bool
        requires { Fits self.old }
        ensures state { self.new.progress ≡ after_finish (plan_of_build self.old) self.old.progress (place_of_job job) (output_seen output.entry) result }
        ensures fits { Fits self.new }
        ensures subject { SameSubject self.old self.new }
    {
        let place = place_of(job);
        if !self.progress.is_running(place) {
            return false;
        }
        self.bring(alloc, place, output)
    }

    // Takes what a running job brought. Answers whether memory was refused here.
    fn bring(&mut self, alloc: Global, place: Place, output: Output<'f>) -> bool
        requires fits { Fits self.old }
        requires running { is_running self.old.progress (place_seen place) ≡ true }
        ensures state { self.new.progress ≡ after_finish (plan_of_build self.old) self.old.progress (place_seen place) (output_seen output.entry) result }
        ensures fits { Fits self.new }
        ensures subject { SameSubject self.old self.new }
    {
        self.progress.bring(place.number, output);
        if self.progress.is_stopped() {
            self.tasks.clear();
            return false;
        }
        self.decide(alloc)
    }

    // The open kind closes, unless one of its jobs isn't finished. Answers whether memory was refused.
    fn decide(&mut self, alloc: Global) -> bool
        requires { IsOpen self.old }
        ensures state { self.new.progress ≡ (if result then record self.old.progress { end = Stopped } else decided (plan_of_build self.old) self.old.progress) }
        ensures fits { Fits self.new }
        ensures subject { SameSubject self.old self.new }
    {
        if !self.progress.is_whole() {
            return false;
        }
        if let Some(fault) = self.progress.least_fault() {
            self.refuse(fault);
            return false;
        }
        if self.open_next(alloc).is_err() {
            self.stop();
            return true;
        }
        false
    }

    // The file is refused with the first fault of its jobs.
    fn refuse(&mut self, fault: Fault)
        requires open { IsOpen self.old }
        requires whole { list_any is_none self.old.progress.brought ≡ false }
        ensures state { self.new.progress ≡ record self.old.progress { end = Refused fault } }
        ensures fits { Fits self.new }
        ensures subject { SameSubject self.old self.new }
    {
        self.progress.refuse(fault);
        self.parts.fault = Some(fault);
        self.tasks.clear();
    }

    // Want of memory stops the build.
    fn stop(&mut self)
        requires { IsOpen self.old }
        ensures state { self.new.progress ≡ record self.old.progress { end = Stopped } }
        ensures fits { Fits self.new }
        ensures subject { SameSubject self.old self.new }
    {
        self.progress.stop();
        self.tasks.clear();
    }
}
