//! The core as its callers see it.

ghost use Rattle.std.specs.Prelude.{◌≡◌, ◌<◌, ◌≤◌, [], Some, IfOk, option_map};
ghost use Rattle.std.specs.List.{enumerate_from};
ghost use Rattle.index_model.specs.LawsCore.{StateIsRight, early_fault, plan_of};
ghost use Rattle.index_model.specs.Machine.{IsCut, machine_start, refused_start, place_of_job, level, stage};
ghost use Rattle.index_model.specs.MachineEvents.{after_draw, after_finish, next_job};
ghost use Rattle.index_model.specs.Outputs.{IsOutputOf};
ghost use Rattle.index_model.specs.Parts.{parts};
ghost use Rattle.stage_core.specs.Cut.{HasUnits};
ghost use Rattle.stage_core.specs.Inputs.{handed};
ghost use Rattle.stage_core.specs.Machines.{Follows};
ghost use Rattle.stage_core.specs.Outputs.{output_seen, parts_seen};
ghost use Rattle.stage_core.specs.Tasks.{task_seen};

use crate::build::Build;
use crate::output::{Output, Parts};
use crate::task::Task;
use index_model::{CacheKind, Job, Unit};
use ix_base::{Fault, NoMemory};
use std::alloc::Global;
use std::marker::Model;

/// The machine on which a whole build runs. Contracts see its subject, which no event changes, and its state; each state is one
/// to which some events of its subject lead, so what the law says of those holds of it.
#[derive(Drop)]
pub struct Core<'f> {
    build: Build<'f>,
}

impl<'f> Model for Core<'f> {
    ghost use Rattle.stage_core.specs.Machines.{Machine};

    ghost Value = { Machine };

    ghost use Rattle.stage_core.specs.Cores.{core_seen, IsSound};

    ghost view = { core_seen };

    ghost invariant = { IsSound };
}

impl<'f> Core<'f> {
    /// A core for a file whose sections and headers have no fault, at stage 0. The units are all its units, in section order.
    /// They are cut into so many consecutive runs, whose lengths differ by at most one.
    ///
    /// # Errors
    ///
    /// `NoMemory` where memory was refused.
    pub fn new(
        alloc: Global,
        file: &'f [u8],
        units: &[Unit],
        shards: u32,
        cache: CacheKind,
    ) -> Result<Core<'f>, NoMemory>
        requires some { 0 < shards }
        requires few { shards ≤ 256 }
        requires units { HasUnits file.now units.now }
        ensures file { IfOk result (λ c. c.subject.file ≡ file.now) }
        ensures cache { IfOk result (λ c. c.subject.cache ≡ cache) }
        ensures cut { IfOk result (λ c. IsCut (enumerate_from 0 units.now) shards c.subject.runs) }
        ensures state { IfOk result (λ c. c.state ≡ machine_start (plan_of c.subject)) }
    {
        let build = Build::start(alloc, file, units.len() as u32, shards, cache)?;
        Ok(Core { build })
    }

    /// A core for a file whose sections or headers have this as their first fault, at stage 4. It has no runs. The kind of
    /// index, of which none is made then, is the one that was asked for.
    pub fn refused(alloc: Global, file: &'f [u8], fault: Fault, cache: CacheKind) -> Core<'f>
        requires { early_fault file.now ≡ Some fault }
        ensures { result ≡ record { subject = record { file = file.now; runs = []; cache = cache }; state = refused_start fault } }
    {
        Core {
            build: Build::refused(alloc, file, fault, cache),
        }
    }

    /// Draws the next job, with its input. None exactly where every job of the open kind is drawn, or the stage is 3, 4 or 5.
    /// Takes no memory.
    pub fn draw(&mut self) -> Option<Task<'f>>
        ensures state { self.new ≡ record self.old { state = after_draw self.old.state } }
        ensures task { option_map task_seen result ≡ option_map (handed self.old.subject self.old.state) (next_job (plan_of self.old.subject) self.old.state) }
        ensures follows { Follows self.old self.new }
    {
        self.build.draw()
    }

    /// Takes what a job brought, which is want of memory or what the definitions give for the job. A job that isn't drawn, or
    /// is already finished, changes nothing. Answers whether memory was refused here; the stage is 5 then.
    pub fn finish(&mut self, alloc: Global, job: Job, output: Output<'f>) -> bool
        requires { IsOutputOf self.old.subject job (output_seen output) }
        ensures state { self.new ≡ record self.old { state = after_finish (plan_of self.old.subject) self.old.state (place_of_job job) (output_seen output.entry) result } }
        ensures follows { Follows self.old self.new }
    {
        self.build.finish(alloc, job, output)
    }

    // The stage: 4 where the file is refused, 5 where memory was wanted, else the level.
    pub(crate) fn current_stage(&self) -> u8
        ensures stage { result ≡ stage (plan_of self.now.subject) self.now.state }
        ensures right { StateIsRight self.now.subject self.now.state }
    {
        self.build.stage()
    }

    /// The level: the greatest of the stages 0 to 3 that was reached. Takes no memory.
    pub fn level(&self) -> u8
        ensures { result ≡ level (plan_of self.now.subject) self.now.state }
    {
        self.build.level()
    }

    /// What has been published, shared. It is what the file means, and stays after stage 5. Takes no memory.
    ///
    /// # Errors
    ///
    /// `NoMemory` where a part has as many owners as can be counted.
    pub fn parts(&self) -> Result<Parts<'f>, NoMemory>
        ensures parts { IfOk result (λ p. parts_seen p ≡ parts self.now.state) }
        ensures right { StateIsRight self.now.subject self.now.state }
    {
        let parts = self.build.parts.share()?;
        Ok(parts)
    }
}

/// Each core is right: what it has published is what its file means, its fault is the first of the file, and each look has the
/// file's reply at the stage. A core that stays as it is follows itself.
pub fn core_is_right(core: &Core<'_>)
    ensures right { StateIsRight core.now.subject core.now.state }
    ensures follows { Follows core.now core.now }
{
    let _ = &core.build;
}
