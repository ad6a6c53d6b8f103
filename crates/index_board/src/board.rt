//! The board.

ghost use Rattle.std.specs.Prelude.{◌≡◌, ◌<◌, ◌≤◌, ◌++◌, ◌∷◌, [], Bool, false, length, max, IfOk, IfSome, IsTrue, option_map};
ghost use Rattle.ix_base.specs.declared.limits.TheConstants.{MAX_FILE_BYTES};
ghost use Rattle.file_image.specs.Images.{image_of};
ghost use Rattle.index_model.specs.LawsCore.{StateIsRight};
ghost use Rattle.index_model.specs.Outputs.{IsOutputOf};
ghost use Rattle.index_model.specs.Parts.{parts};
ghost use Rattle.index_model.specs.Stages.{IsReachable, stopped};
ghost use Rattle.stage_lock.specs.Seen.{IsPassOf, first_pass, parted_pass, split_pass};
ghost use Rattle.stage_lock.specs.Shares.{sum_of};
ghost use Rattle.stage_core.specs.Machines.{FitsFile, Machine, stage_of};
ghost use Rattle.stage_core.specs.Outputs.{output_seen, parts_seen};
ghost use Rattle.stage_core.specs.Tasks.{task_seen};
ghost use Rattle.index_board.specs.Boards.{IsCutOf, IsImage, first_stage};
ghost use Rattle.index_board.specs.Kept.{no_parts};
ghost use Rattle.index_board.specs.Turns.{Turn, drawn, finished, next_task};

use crate::reader::Reader;
use file_image::Image;
use index_model::{CacheKind, Job};
use ix_base::{NoMemory, Stop};
use stage_core::{Core, Output, Parts, Task, core_is_right};
use stage_lock::StageLock;
use std::alloc::Global;
use std::marker::Model;
use std::sync::Wait;
use std::time::Duration;

/// The right of one thread to step on a board. It has no bytes.
pub type Pass<'f> = stage_lock::Pass<Core<'f>>;

/// A build that workers and readers share. Contracts see its lock, whose subject is the file's bytes, the cut of its units into
/// runs and the kind of the index; no call changes it.
#[derive(Drop)]
pub struct Board<'f> {
    pub(crate) lock: StageLock<Core<'f>>,
    image: Option<Image<'f>>,
    alloc: Global,
}

impl<'f> Model for Board<'f> {
    ghost use Rattle.stage_lock.specs.Seen.{Lock};
    ghost use Rattle.index_model.specs.Outputs.{Subject};

    ghost Value = { Lock Subject };

    ghost use Rattle.file_image.specs.Images.{image_of};
    ghost use Rattle.index_board.specs.Boards.{IsImage};

    ghost view = { λ b. b.lock };

    ghost invariant = { λ b. IsImage (image_of b.lock.subject.file) b.image };
}

impl<'f> Board<'f> {
    /// A board for a file of at most `MAX_FILE_BYTES` bytes, and its first pass. The stage is 4 where the file has a fault of its
    /// sections or headers, else 0. The units are cut into so many consecutive runs, whose lengths differ by at most one.
    ///
    /// # Errors
    ///
    /// `NoMemory` where memory was refused.
    pub fn open(
        alloc: Global,
        file: &'f [u8],
        cache: CacheKind,
        shards: u32,
    ) -> Result<(Board<'f>, Pass<'f>), NoMemory>
        requires small { length file.now ≤ MAX_FILE_BYTES }
        requires some { 0 < shards }
        requires few { shards ≤ 256 }
        ensures file { IfOk result (λ made. made.0.subject.file ≡ file.now) }
        ensures cache { IfOk result (λ made. made.0.subject.cache ≡ cache) }
        ensures cut { IfOk result (λ made. IsCutOf (image_of file.now) shards made.0.subject.runs) }
        ensures pass { IfOk result (λ made. made.1 ≡ first_pass made.0 (first_stage file.now)) }
    {
        match Image::open(alloc, file) {
            Ok(image) => Board::with_image(alloc, file, image, cache, shards),
            Err(Stop::Cause(fault)) => {
                Board::over(alloc, Core::refused(alloc, file, fault, cache), None)
            }
            Err(Stop::Memory) => Err(NoMemory),
        }
    }

    // A board for a file whose sections and headers have no fault.
    fn with_image(
        alloc: Global,
        file: &'f [u8],
        image: Image<'f>,
        cache: CacheKind,
        shards: u32,
    ) -> Result<(Board<'f>, Pass<'f>), NoMemory>
        requires image { image_of file.now ≡ Ok image }
        requires some { 0 < shards }
        requires few { shards ≤ 256 }
        ensures file { IfOk result (λ made. made.0.subject.file ≡ file.now) }
        ensures cache { IfOk result (λ made. made.0.subject.cache ≡ cache) }
        ensures cut { IfOk result (λ made. IsCutOf (image_of file.now) shards made.0.subject.runs) }
        ensures pass { IfOk result (λ made. made.1 ≡ first_pass made.0 (first_stage file.now)) }
    {
        let core = Core::new(alloc, file, image.units(), shards, cache)?;
        Board::over(alloc, core, Some(image))
    }

    // A board over a core, with the image of its file.
    fn over(
        alloc: Global,
        core: Core<'f>,
        image: Option<Image<'f>>,
    ) -> Result<(Board<'f>, Pass<'f>), NoMemory>
        requires { IsImage (image_of core.subject.file) image }
        ensures subject { IfOk result (λ made. made.0.subject ≡ core.entry.subject) }
        ensures pass { IfOk result (λ made. made.1 ≡ first_pass made.0 (stage_of core.entry)) }
    {
        let (lock, pass) = StageLock::new(alloc, core)?;
        let board = Board { lock, image, alloc };
        Ok((board, pass))
    }

    /// The file with its sections and units. None exactly where the board began at stage 4.
    pub fn image(&self) -> Option<&Image<'f>>
        ensures { IsImage (image_of self.now.subject.file) (option_map (λ i. i.now) result) }
    {
        self.image.as_ref()
    }

    /// A reader, whose pass is split from this one: each has half of the share that this one had. It keeps no parts.
    pub fn reader<'b>(&'b self, pass: &mut Pass<'f>) -> Reader<'b, 'f>
        requires own { IsPassOf self.now pass.old }
        ensures parted { pass.new ≡ parted_pass pass.old }
        ensures reader { result ≡ record { board = self.now; pass = split_pass pass.old; kept = no_parts } }
    {
        Reader::new(self, self.split(pass))
    }

    /// The stage, by one load. Waits for nobody and takes no memory. The stages 1 to 3 come only where the file has no fault, and
    /// 4 only where it has one. While the pass holds the core, it is the stage of the core that was taken out.
    pub fn mark(&self, pass: &mut Pass<'f>) -> u8
        requires own { IsPassOf self.now pass.old }
        ensures pass { pass.new ≡ record pass.old { marks = pass.old.marks ++ result ∷ []; floor = result } }
        ensures reach { IsReachable pass.old.floor result }
        ensures range { result ≤ stopped }
        ensures fits { FitsFile self.now.subject result }
        ensures holding { IsTrue pass.old.holding → IfSome pass.old.value_out (λ taken. stage_of taken ≡ result) }
    {
        self.lock.mark(pass)
    }

    /// Rests while the stage is this one, for so long at most, as `StageLock::rest` does.
    pub fn rest<R: Wait>(&self, rt: &R, stage: u8, most: Duration) {
        self.lock.rest(rt, stage, most);
    }

    /// A new pass, which begins where this one is. Each has half of the share that this one had.
    pub fn split(&self, pass: &mut Pass<'f>) -> Pass<'f>
        requires own { IsPassOf self.now pass.old }
        ensures parted { pass.new ≡ parted_pass pass.old }
        ensures new { result ≡ split_pass pass.old }
    {
        self.lock.split(pass)
    }

    /// Takes another pass in: its marks, turns and values go, the floor becomes the greater of both, and the shares are added.
    pub fn join(&self, pass: &mut Pass<'f>, other: Pass<'f>)
        requires own { IsPassOf self.now pass.old }
        requires other { IsPassOf self.now other }
        requires idle { other.holding ≡ false }
        ensures pass { pass.new ≡ record pass.old { floor = max pass.old.floor other.entry.floor; share = sum_of pass.old.share other.entry.share } }
        ensures reach { IsReachable pass.old.floor pass.new.floor }
        ensures other_reach { IsReachable other.entry.floor pass.new.floor }
    {
        self.lock.join(pass, other);
    }

    /// Draws the next job in one turn. May wait for the turn. None exactly where every job of the open kind is drawn, or the
    /// stage is 3, 4 or 5.
    pub fn draw<R: Wait>(&self, rt: &R, pass: &mut Pass<'f>) -> Option<Task<'f>>
        requires own { IsPassOf self.now pass.old }
        requires idle { pass.old.holding ≡ false }
        ensures own { IsPassOf self.now pass.new }
        ensures idle { pass.new.holding ≡ false }
        ensures turn { (m : Machine) × Turn self.now pass.old pass.new m (drawn m) × (option_map task_seen result ≡ next_task m) }
    {
        let mut core = self.lock.enter(rt, pass);
        let task = core.draw();
        self.lock.leave(pass, core);
        task
    }

    /// Takes what a job brought, in one turn. May wait for the turn. The output is want of memory, or what the definitions give
    /// for the job. A job that isn't drawn, or is already finished, changes nothing.
    pub fn finish<R: Wait>(&self, rt: &R, pass: &mut Pass<'f>, job: Job, output: Output<'f>)
        requires own { IsPassOf self.now pass.old }
        requires idle { pass.old.holding ≡ false }
        requires output { IsOutputOf self.now.subject job (output_seen output) }
        ensures own { IsPassOf self.now pass.new }
        ensures idle { pass.new.holding ≡ false }
        ensures turn { (m : Machine) × (refused : Bool) × Turn self.now pass.old pass.new m (finished m job (output_seen output.entry) refused) }
    {
        let mut core = self.lock.enter(rt, pass);
        core.finish(self.alloc, job, output);
        self.lock.leave(pass, core);
    }

    // What has been published, shared in one turn. May wait for the turn.
    pub(crate) fn share<R: Wait>(&self, rt: &R, pass: &mut Pass<'f>) -> Result<Parts<'f>, NoMemory>
        requires own { IsPassOf self.now pass.old }
        requires idle { pass.old.holding ≡ false }
        ensures turn { (m : Machine) × Turn self.now pass.old pass.new m m × StateIsRight m.subject m.state × IfOk result (λ p. parts_seen p ≡ parts m.state) }
    {
        let core = self.lock.enter(rt, pass);
        core_is_right(&core);
        let shared = core.parts();
        self.lock.leave(pass, core);
        shared
    }

    // One mark within a turn, and what has been published, shared in it. May wait for the turn.
    pub(crate) fn share_at_mark<R: Wait>(
        &self,
        rt: &R,
        pass: &mut Pass<'f>,
    ) -> (u8, Result<Parts<'f>, NoMemory>)
        requires own { IsPassOf self.now pass.old }
        requires idle { pass.old.holding ≡ false }
        ensures reach { IsReachable pass.old.floor result.0 }
        ensures range { result.0 ≤ stopped }
        ensures fits { FitsFile self.now.subject result.0 }
        ensures turn { (m : Machine) × (result.0 ≡ stage_of m) × Turn self.now (record pass.old { marks = pass.old.marks ++ result.0 ∷ [] }) pass.new m m × StateIsRight m.subject m.state × IfOk result.1 (λ p. parts_seen p ≡ parts m.state) }
    {
        let core = self.lock.enter(rt, pass);
        core_is_right(&core);
        let stage = self.mark(pass);
        let shared = core.parts();
        self.lock.leave(pass, core);
        (stage, shared)
    }

    /// Gives up the board.
    pub fn close(self, pass: Pass<'f>)
        requires own { IsPassOf self pass }
        requires idle { pass.holding ≡ false }
    {
        let Board { lock, .. } = self;
        lock.close(pass);
    }
}
