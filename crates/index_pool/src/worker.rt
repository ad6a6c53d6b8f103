//! One worker of a team.

ghost use Rattle.std.specs.Prelude.{◌≡◌, ◌≤◌, false};
ghost use Rattle.index_model.specs.Stages.{cache_written};
ghost use Rattle.stage_lock.specs.Seen.{IsPassOf};

use crate::pool::work_to;
use index_board::{Board, Pass};
use outside::Gate;
use std::alloc::Global;
use std::sync::Wait;
use std::thread::Threads;

/// A pass beside its board and the stage to which it works, so that one value goes to a thread.
#[derive(Drop)]
pub(crate) struct Worker<'b, 'f> {
    pub alloc: Global,
    pub board: &'b Board<'f>,
    pub pass: Pass<'f>,
    pub goal: u8,
    ghost own: { IsPassOf board.now pass },
    ghost idle: { pass.holding ≡ false },
    ghost stage: { goal ≤ cache_written },
}

impl Worker<'_, '_> {
    /// Works until the build is at its stage, or has ended. May wait.
    pub(crate) fn run<R: Threads + Wait + Sync, G: Gate + Sync>(&mut self, rt: &R, gate: &G)
        ensures { self.new.board.now ≡ self.old.board.now }
    {
        let goal = self.goal;
        work_to(rt, self.alloc, self.board, &mut self.pass, goal, gate);
    }
}
