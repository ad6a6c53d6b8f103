//! Several workers at once.

ghost use Rattle.std.specs.Prelude.{◌≡◌, ◌<◌, ◌≤◌, All, false, length, vec_len, IfOk};
ghost use Rattle.index_model.specs.Stages.{IsReachable, cache_written};
ghost use Rattle.stage_lock.specs.Seen.{IsPassOf};
ghost use Rattle.index_pool.specs.Teams.{HaveStayed, IsOfBoard};

use crate::worker::Worker;
use index_board::{Board, Pass};
use outside::Gate;
use std::alloc::{AllocError, Global};
use std::sync::Wait;
use std::thread::{Threads, for_each_mut};

/// Runs `work_to` on so many workers, each in a thread of its own where one can be started, and takes in what they know. May wait.
/// Where memory is refused none of them has worked.
pub(crate) fn work_together<'f, R: Threads + Wait + Sync, G: Gate + Sync>(
    rt: &R,
    alloc: Global,
    board: &Board<'f>,
    pass: &mut Pass<'f>,
    workers: u32,
    goal: u8,
    gate: &G,
)
    requires own { IsPassOf board.now pass.old }
    requires idle { pass.old.holding ≡ false }
    requires some { 0 < workers }
    requires goal { goal ≤ cache_written }
    ensures own { IsPassOf board.now pass.new }
    ensures idle { pass.new.holding ≡ false }
    ensures reach { IsReachable pass.old.floor pass.new.floor }
{
    if let Ok(mut team) = gather(alloc, board, pass, workers, goal) {
        run_team(rt, board, pass, &mut team, gate);
    }
}

// Runs `work_to` on these workers, and takes in what they know. May wait.
fn run_team<'f, R: Threads + Wait + Sync, G: Gate + Sync>(
    rt: &R,
    board: &Board<'f>,
    pass: &mut Pass<'f>,
    team: &mut [Worker<'_, 'f>],
    gate: &G,
)
    requires own { IsPassOf board.now pass.old }
    requires idle { pass.old.holding ≡ false }
    requires some { 0 < length team.old }
    requires board { All (IsOfBoard board.now) team.old }
    ensures own { IsPassOf board.now pass.new }
    ensures idle { pass.new.holding ≡ false }
    ensures reach { IsReachable pass.old.floor pass.new.floor }
{
    run_all(rt, team, gate);
    take_in(board, pass, team);
}

// So many workers to this stage, whose passes are split from this one.
fn gather<'b, 'f>(
    alloc: Global,
    board: &'b Board<'f>,
    pass: &mut Pass<'f>,
    workers: u32,
    goal: u8,
) -> Result<Vec<Worker<'b, 'f>>, AllocError>
    requires own { IsPassOf board.now pass.old }
    requires idle { pass.old.holding ≡ false }
    requires goal { goal ≤ cache_written }
    ensures own { IsPassOf board.now pass.new }
    ensures idle { pass.new.holding ≡ false }
    ensures floor { pass.new.floor ≡ pass.old.floor }
    ensures count { IfOk result (λ team. vec_len team ≡ workers) }
    ensures board { IfOk result (λ team. All (IsOfBoard board.now) team.items) }
{
    let mut team = Vec::with_capacity(alloc, workers as usize)?;
    for _worker in 0..workers {
        let pass = board.split(pass);
        team.push(Worker {
            alloc,
            board,
            pass,
            goal,
        })?;
    }
    Ok(team)
}

// Each of them at once. May wait.
fn run_all<R: Threads + Wait + Sync, G: Gate + Sync>(rt: &R, team: &mut [Worker<'_, '_>], gate: &G)
    requires { 0 < length team.old }
    ensures { HaveStayed team.old team.new }
{
    let threads = team.len();
    for_each_mut(rt, team, threads, &|_number, worker| worker.run(rt, gate));
}

// Takes in what these workers know, by a part of each one's pass.
fn take_in<'f>(board: &Board<'f>, pass: &mut Pass<'f>, team: &mut [Worker<'_, 'f>])
    requires own { IsPassOf board.now pass.old }
    requires idle { pass.old.holding ≡ false }
    requires board { All (IsOfBoard board.now) team.old }
    ensures own { IsPassOf board.now pass.new }
    ensures idle { pass.new.holding ≡ false }
    ensures reach { IsReachable pass.old.floor pass.new.floor }
{
    for worker in team.iter_mut() {
        board.join(pass, board.split(&mut worker.pass));
    }
}
