//! The rounds of a race: all readers at once.

ghost use Rattle.std.specs.Prelude.{◌≡◌, ◌≤◌, ◌<◌, ◌*◌, length, vec_len, false, IfOk, All};
ghost use Rattle.stage_core.specs.Machines.{FitsFile};
ghost use Rattle.stage_lock.specs.Seen.{IsPassOf};
ghost use Rattle.index_pool.specs.Ends.{stage_at_end, IsLast};
ghost use Rattle.race_command.specs.Runners.{AllAnswered, AllTold, IsFresh};
ghost use Rattle.race_command.specs.declared.script.TheConstants.{MAX_SCRIPT_BYTES};
ghost use Rattle.race_command.specs.declared.runner.Round.TheVariants.{During};
ghost use Rattle.race_command.specs.declared.transcript.TheConstants.{MAX_RACE_BYTES};

use crate::runner::{Round, Runner};
use crate::transcript::MAX_RACE_BYTES;
use index_board::{Board, Pass};
use index_pool::{Crew, Ended, build};
use ix_base::NoMemory;
use name_quotes::Spelling;
use outside::Gate;
use std::alloc::Global;
use std::sync::Wait;
use std::thread::{Threads, for_each_mut, join_mut};

/// So many readers, whose passes are split from this one.
pub(crate) fn gather<'b, 'f>(
    alloc: Global,
    board: &'b Board<'f>,
    pass: &mut Pass<'f>,
    readers: u32,
) -> Result<Vec<Runner<'b, 'f>>, NoMemory>
    requires own { IsPassOf board.now pass.old }
    requires idle { pass.old.holding ≡ false }
    requires some { 0 < readers }
    ensures own { IsPassOf board.now pass.new }
    ensures idle { pass.new.holding ≡ false }
    ensures floor { pass.new.floor ≡ pass.old.floor }
    ensures count { IfOk result (λ runners. vec_len runners ≡ readers) }
    ensures fresh { IfOk result (λ runners. All (IsFresh board.now pass.old.floor) runners.items) }
    ensures shares { IfOk result (λ runners. All (λ r. 2 * readers * r.share ≤ MAX_RACE_BYTES) runners.items) }
{
    let share = share_of(readers);
    let mut runners = Vec::with_capacity(alloc, readers as usize)?;
    for _reader in 0..readers {
        let reader = board.reader(pass);
        runners.push(Runner::new(alloc, share, reader)?)?;
    }
    Ok(runners)
}

// How many bytes each of two sessions of so many readers may hold.
fn share_of(readers: u32) -> usize
    requires { 0 < readers }
    ensures { 2 * readers * result ≤ MAX_RACE_BYTES }
{
    (MAX_RACE_BYTES / (2 * u64::from(readers))) as usize
}

/// The first round: each reader answers the script, and the index is built meanwhile. May wait.
pub(crate) fn race_beside<'f, R: Threads + Wait + Sync, G: Gate + Sync>(
    crew: &Crew<'_, R, G>,
    board: &Board<'f>,
    pass: &mut Pass<'f>,
    runners: &mut [Runner<'_, 'f>],
    spelling: Spelling,
    script: &[u8],
) -> Ended
    requires own { IsPassOf board.now pass.old }
    requires idle { pass.old.holding ≡ false }
    requires one_worker { 0 < crew.now.workers }
    requires few_workers { crew.now.workers ≤ 64 }
    requires some { 0 < length runners.old }
    requires few { length runners.old ≤ 16 }
    requires script { length script.now ≤ MAX_SCRIPT_BYTES }
    ensures answered { AllAnswered spelling During script.now runners.old runners.new }
    ensures own { IsPassOf board.now pass.new }
    ensures idle { pass.new.holding ≡ false }
    ensures ended { pass.new.floor ≡ stage_at_end result }
    ensures last { IsLast pass.new.floor }
    ensures fits { FitsFile board.now.subject pass.new.floor }
{
    let Crew {
        rt,
        alloc,
        workers,
        gate,
    } = *crew;
    // Where no thread can be made, the second of both goes first, which is the build.
    let (_, ended) = join_mut(
        rt,
        &mut ||
            requires some { 0 < length runners.now }
            requires few { length runners.now ≤ 16 }
            requires script { length script.now ≤ MAX_SCRIPT_BYTES }
        { answer_all(rt, Round::During, spelling, script, gate, runners) },
        &mut ||
            requires own { IsPassOf board.now pass.now }
            requires idle { pass.now.holding ≡ false }
            requires some { 0 < workers }
            requires few { workers ≤ 64 }
        { build(rt, alloc, board, pass, workers, gate) },
    );
    ended
}

/// Each reader answers the script in the round, at the same time as the others. May wait.
pub(crate) fn answer_all<R: Threads + Wait + Sync, G: Gate + Sync>(
    rt: &R,
    round: Round,
    spelling: Spelling,
    script: &[u8],
    gate: &G,
    runners: &mut [Runner<'_, '_>],
)
    requires some { 0 < length runners.old }
    requires few { length runners.old ≤ 16 }
    requires script { length script.now ≤ MAX_SCRIPT_BYTES }
    ensures { AllAnswered spelling round script.now runners.old runners.new }
{
    let threads = runners.len();
    for_each_mut(
        rt,
        runners,
        threads,
        &|number, runner|
            requires script { length script.now ≤ MAX_SCRIPT_BYTES }
            requires few { number < 16 }
        { runner.answer(rt, round, number, spelling, script, gate) },
    );
}

/// Tells each reader what the pass knows.
pub(crate) fn tell<'f>(board: &Board<'f>, pass: &mut Pass<'f>, runners: &mut [Runner<'_, 'f>])
    requires own { IsPassOf board.now pass.old }
    requires idle { pass.old.holding ≡ false }
    requires boards { All (λ r. r.reader.board ≡ board.now) runners.old }
    ensures own { IsPassOf board.now pass.new }
    ensures idle { pass.new.holding ≡ false }
    ensures floor { pass.new.floor ≡ pass.old.floor }
    ensures told { AllTold pass.old.floor runners.old runners.new }
{
    for runner in runners.iter_mut() {
        runner.reader.told(board.split(pass));
    }
}
