//! Workers, and a build by several of them.

ghost use Rattle.std.specs.Prelude.{◌≡◌, ◌<◌, ◌≤◌, ℕ, false};
ghost use Rattle.index_model.specs.Stages.{IsReachable, cache_written, stopped};
ghost use Rattle.stage_core.specs.Machines.{FitsFile};
ghost use Rattle.stage_lock.specs.Seen.{IsPassOf};
ghost use Rattle.index_pool.specs.Ends.{stage_at_end, IsLast};

use crate::ended::{Ended, ended_at};
use crate::next_job::do_next;
use crate::team::work_together;
use index_board::{Board, Pass};
use outside::Gate;
use std::alloc::Global;
use std::sync::Wait;
use std::thread::Threads;
use std::time::Duration;

// How many microseconds a worker rests for whom there is no job. Each rest in a row is twice as long as the one before, so what
// it may lose when new jobs come is about what it has rested already.
const LEAST_REST: u64 = 50;

const MOST_REST: u64 = 800;

/// The stage of a build whose index is written.
pub(crate) const INDEX_WRITTEN: u8 = 3;

/// Draws, does and finishes jobs of a build until it has ended. May wait. The gate is told of each job.
///
/// The answer is the stage that the pass knows afterwards, from which no other is reachable: a reader that is made from this
/// pass, or is told by it, gets no other mark.
pub fn work<'f, R: Threads + Wait + Sync, G: Gate + Sync>(
    rt: &R,
    alloc: Global,
    board: &Board<'f>,
    pass: &mut Pass<'f>,
    gate: &G,
) -> Ended
    requires own { IsPassOf board.now pass.old }
    requires idle { pass.old.holding ≡ false }
    ensures own { IsPassOf board.now pass.new }
    ensures idle { pass.new.holding ≡ false }
    ensures reach { IsReachable pass.old.floor pass.new.floor }
    ensures ended { pass.new.floor ≡ stage_at_end result }
    ensures last { IsLast pass.new.floor }
    ensures fits { FitsFile board.now.subject pass.new.floor }
{
    ended_at(work_to(rt, alloc, board, pass, INDEX_WRITTEN, gate))
}

/// Draws, does and finishes jobs of a build until it is at this stage, or has ended. May wait. The gate is told of each job. The
/// answer is the stage that the pass knows afterwards. A job that was drawn is finished, and those behind the stage are left.
pub fn work_to<'f, R: Threads + Wait + Sync, G: Gate + Sync>(
    rt: &R,
    alloc: Global,
    board: &Board<'f>,
    pass: &mut Pass<'f>,
    goal: u8,
    gate: &G,
) -> u8
    requires own { IsPassOf board.now pass.old }
    requires idle { pass.old.holding ≡ false }
    requires goal { goal ≤ cache_written }
    ensures own { IsPassOf board.now pass.new }
    ensures idle { pass.new.holding ≡ false }
    ensures reach { IsReachable pass.old.floor pass.new.floor }
    ensures stage { pass.new.floor ≡ result }
    ensures least { goal ≤ result }
    ensures range { result ≤ stopped }
    ensures fits { FitsFile board.now.subject pass.new.floor }
{
    let mut rest = LEAST_REST;
    for _ in rt.forever() {
        let stage = board.mark(pass);
        if stage >= goal {
            return stage;
        }
        if help(rt, alloc, board, pass, gate) {
            rest = LEAST_REST;
        } else {
            board.rest(rt, stage, Duration::from_micros(rest));
            rest = MOST_REST.min(rest.saturating_mul(2));
        }
    }
    unreachable!()
}

// Does the next job, if there is one. Without an image there is none.
fn help<'f, R: Threads + Wait + Sync, G: Gate>(
    rt: &R,
    alloc: Global,
    board: &Board<'f>,
    pass: &mut Pass<'f>,
    gate: &G,
) -> bool
    requires own { IsPassOf board.now pass.old }
    requires idle { pass.old.holding ≡ false }
    ensures own { IsPassOf board.now pass.new }
    ensures idle { pass.new.holding ≡ false }
    ensures reach { IsReachable pass.old.floor pass.new.floor }
{
    match board.image() {
        Some(image) => do_next(rt, alloc, board, image, pass, gate),
        None => false,
    }
}

/// Runs `work` on so many workers, one of them on the caller's thread. May wait. Where a thread can't be started its worker's
/// jobs are done by others, and where memory for the workers is refused the caller works alone.
///
/// The answer is the stage that the pass knows afterwards, from which no other is reachable: a reader that is made from this
/// pass, or is told by it, gets no other mark.
pub fn build<'f, R: Threads + Wait + Sync, G: Gate + Sync>(
    rt: &R,
    alloc: Global,
    board: &Board<'f>,
    pass: &mut Pass<'f>,
    workers: u32,
    gate: &G,
) -> Ended
    requires own { IsPassOf board.now pass.old }
    requires idle { pass.old.holding ≡ false }
    requires some { 0 < workers }
    requires few { workers ≤ 64 }
    ensures own { IsPassOf board.now pass.new }
    ensures idle { pass.new.holding ≡ false }
    ensures reach { IsReachable pass.old.floor pass.new.floor }
    ensures ended { pass.new.floor ≡ stage_at_end result }
    ensures last { IsLast pass.new.floor }
    ensures fits { FitsFile board.now.subject pass.new.floor }
{
    ended_at(build_to(rt, alloc, board, pass, workers, INDEX_WRITTEN, gate))
}

/// Runs `work_to` on so many workers, as `build` runs `work`. May wait. The answer is the stage that the pass knows afterwards.
pub fn build_to<'f, R: Threads + Wait + Sync, G: Gate + Sync>(
    rt: &R,
    alloc: Global,
    board: &Board<'f>,
    pass: &mut Pass<'f>,
    workers: u32,
    goal: u8,
    gate: &G,
) -> u8
    requires own { IsPassOf board.now pass.old }
    requires idle { pass.old.holding ≡ false }
    requires some { 0 < workers }
    requires few { workers ≤ 64 }
    requires goal { goal ≤ cache_written }
    ensures own { IsPassOf board.now pass.new }
    ensures idle { pass.new.holding ≡ false }
    ensures reach { IsReachable pass.old.floor pass.new.floor }
    ensures stage { pass.new.floor ≡ result }
    ensures least { goal ≤ result }
    ensures range { result ≤ stopped }
    ensures fits { FitsFile board.now.subject pass.new.floor }
{
    work_together(rt, alloc, board, pass, workers, goal, gate);
    work_to(rt, alloc, board, pass, goal, gate)
}
