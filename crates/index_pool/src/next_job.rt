//! One job of a worker.

ghost use Rattle.std.specs.Prelude.{◌≡◌, Ok, false, true};
ghost use Rattle.file_image.specs.Images.{image_of};
ghost use Rattle.index_model.specs.Stages.{IsReachable};
ghost use Rattle.stage_lock.specs.Seen.{IsPassOf};
ghost use Rattle.stage_core.specs.Tasks.{task_seen};
ghost use Rattle.index_pool.specs.Jobs.{HasNone, IsDone, IsDrawnFrom, IsFinished};

use crate::job::perform;
use file_image::Image;
use index_board::{Board, Pass};
use index_model::Moment;
use outside::Gate;
use stage_core::Task;
use std::alloc::Global;
use std::sync::Wait;
use std::thread::Threads;

/// Draws the next job, does it and finishes it. May wait. The gate is told of the job's begin before the job is done, and of its
/// end after it is finished, so that what it made is published then. Answers whether there was one.
pub(crate) fn do_next<'f, R: Threads + Wait + Sync, G: Gate>(
    rt: &R,
    alloc: Global,
    board: &Board<'f>,
    image: &Image<'f>,
    pass: &mut Pass<'f>,
    gate: &G,
) -> bool
    requires image { image_of board.now.subject.file ≡ Ok image.now }
    requires own { IsPassOf board.now pass.old }
    requires idle { pass.old.holding ≡ false }
    ensures own { IsPassOf board.now pass.new }
    ensures idle { pass.new.holding ≡ false }
    ensures reach { IsReachable pass.old.floor pass.new.floor }
    ensures done { result ≡ true → IsDone board.now pass.old pass.new }
    ensures none { result ≡ false → HasNone board.now pass.old pass.new }
{
    let Some(task) = board.draw(rt, pass) else {
        return false;
    };
    do_drawn(rt, alloc, board, image, pass, gate, task);
    true
}

// Does a job that was drawn from the board, and finishes it. May wait.
fn do_drawn<'f, R: Threads + Wait + Sync, G: Gate>(
    rt: &R,
    alloc: Global,
    board: &Board<'f>,
    image: &Image<'f>,
    pass: &mut Pass<'f>,
    gate: &G,
    task: Task<'f>,
)
    requires drawn { IsDrawnFrom board.now image.now (task_seen task) }
    requires own { IsPassOf board.now pass.old }
    requires idle { pass.old.holding ≡ false }
    ensures own { IsPassOf board.now pass.new }
    ensures idle { pass.new.holding ≡ false }
    ensures finished { IsFinished board.now pass.old pass.new (task_seen task.entry).job }
{
    let job = task.job();
    gate.arrive(rt, job, Moment::Begin);
    let output = perform(rt, alloc, image, task);
    board.finish(rt, pass, job, output);
    gate.arrive(rt, job, Moment::End);
}
