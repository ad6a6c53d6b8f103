//! A build of a file's bytes, from the board to its end.

ghost use Rattle.std.specs.Prelude.{◌≡◌, ◌<◌, ◌≤◌, false, length, IfOk};
ghost use Rattle.ix_base.specs.declared.limits.TheConstants.{MAX_FILE_BYTES};
ghost use Rattle.index_board.specs.Boards.{first_stage};
ghost use Rattle.index_model.specs.Stages.{IsReachable, cache_written};
ghost use Rattle.stage_core.specs.Machines.{FitsFile};
ghost use Rattle.stage_lock.specs.Seen.{IsPassOf, first_pass};
ghost use Rattle.index_pool.specs.Ends.{stage_at_end, IsLast};

use crate::ended::Ended;
use crate::pool::{INDEX_WRITTEN, build, build_to};
use index_board::{Board, Pass};
use index_model::CacheKind;
use ix_base::NoMemory;
use outside::Gate;
use std::alloc::Global;
use std::sync::Wait;
use std::thread::Threads;

// Each worker has so many shards, so that long ones even out. By as many runs a table takes a thread.
const SHARDS_PER_WORKER: u32 = 4;

/// So many workers, and what they build with.
#[derive(Drop)]
pub struct Crew<'c, R, G> {
    pub rt: &'c R,
    pub alloc: Global,
    /// 1 to 64.
    pub workers: u32,
    pub gate: &'c G,
}

impl<R: Threads + Wait + Sync, G: Gate + Sync> Crew<'_, R, G> {
    /// A board for a file's bytes, whose units are cut into shards for these workers, and its first pass.
    ///
    /// # Errors
    ///
    /// `NoMemory` where memory was refused.
    pub fn open<'f>(
        &self,
        file: &'f [u8],
        kind: CacheKind,
    ) -> Result<(Board<'f>, Pass<'f>), NoMemory>
        requires small { length file.now ≤ MAX_FILE_BYTES }
        requires some { 0 < self.now.workers }
        requires few { self.now.workers ≤ 64 }
        ensures file { IfOk result (λ made. made.0.subject.file ≡ file.now) }
        ensures kind { IfOk result (λ made. made.0.subject.cache ≡ kind) }
        ensures pass { IfOk result (λ made. made.1 ≡ first_pass made.0 (first_stage file.now)) }
    {
        Board::open(self.alloc, file, kind, SHARDS_PER_WORKER * self.workers)
    }

    /// Builds on the board to the end, as `build` does. May wait.
    pub fn build<'f>(&self, board: &Board<'f>, pass: &mut Pass<'f>) -> Ended
        requires own { IsPassOf board.now pass.old }
        requires idle { pass.old.holding ≡ false }
        requires some { 0 < self.now.workers }
        requires few { self.now.workers ≤ 64 }
        ensures own { IsPassOf board.now pass.new }
        ensures idle { pass.new.holding ≡ false }
        ensures ended { pass.new.floor ≡ stage_at_end result }
        ensures last { IsLast pass.new.floor }
        ensures fits { FitsFile board.now.subject pass.new.floor }
    {
        build(self.rt, self.alloc, board, pass, self.workers, self.gate)
    }

    /// A board for a file's bytes whose build has ended, and a pass that knows how. May wait.
    ///
    /// # Errors
    ///
    /// `NoMemory` where memory for the board was refused.
    pub fn build_file<'f>(
        &self,
        file: &'f [u8],
        kind: CacheKind,
    ) -> Result<(Board<'f>, Pass<'f>), NoMemory>
        requires small { length file.now ≤ MAX_FILE_BYTES }
        requires some { 0 < self.now.workers }
        requires few { self.now.workers ≤ 64 }
        ensures file { IfOk result (λ made. made.0.subject.file ≡ file.now) }
        ensures kind { IfOk result (λ made. made.0.subject.cache ≡ kind) }
        ensures own { IfOk result (λ made. IsPassOf made.0 made.1) }
        ensures idle { IfOk result (λ made. made.1.holding ≡ false) }
        ensures least { IfOk result (λ made. cache_written ≤ made.1.floor) }
        ensures last { IfOk result (λ made. IsLast made.1.floor) }
    {
        self.build_until(file, kind, INDEX_WRITTEN)
    }

    /// A board for a file's bytes whose build is at this stage, or has ended, and a pass that knows it. May wait. What is published
    /// behind the stage is left out.
    ///
    /// # Errors
    ///
    /// `NoMemory` where memory for the board was refused.
    pub fn build_until<'f>(
        &self,
        file: &'f [u8],
        kind: CacheKind,
        stage: u8,
    ) -> Result<(Board<'f>, Pass<'f>), NoMemory>
        requires small { length file.now ≤ MAX_FILE_BYTES }
        requires some { 0 < self.now.workers }
        requires few { self.now.workers ≤ 64 }
        requires stage { stage ≤ cache_written }
        ensures file { IfOk result (λ made. made.0.subject.file ≡ file.now) }
        ensures kind { IfOk result (λ made. made.0.subject.cache ≡ kind) }
        ensures own { IfOk result (λ made. IsPassOf made.0 made.1) }
        ensures idle { IfOk result (λ made. made.1.holding ≡ false) }
        ensures least { IfOk result (λ made. stage ≤ made.1.floor) }
    {
        match self.open(file, kind) {
            Ok((board, mut pass)) => {
                let workers = self.workers;
                build_to(
                    self.rt, self.alloc, &board, &mut pass, workers, stage, self.gate,
                );
                Ok((board, pass))
            }
            Err(error) => Err(error),
        }
    }
}
