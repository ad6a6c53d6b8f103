//! stage_lock: a lock under several threads, over a build that counts its turns.

ghost use Rattle.std.specs.Prelude.{◌≡◌, ◌≤◌, ◌+◌, false};
ghost use Rattle.index_model.specs.Stages.{IsReachable};
ghost use Rattle.stage_lock.specs.Seen.{IsPassOf, parted_pass};

use index_model::Staged;
use ix_base::NoMemory;
use stage_lock::{Pass, StageLock};
use std::alloc::Global;
use std::sync::Wait;
use std::thread::{Threads, join, yield_now};

// A build of the file with this number. Its stage rises with its turns.
#[derive(Drop)]
struct Build {
    file: u32,
    stage: u8,
    turns: u32,
    ghost known: { stage ≤ 5 },
}

impl Staged for Build {
    ghost use Rattle.std.specs.Prelude.{◌≡◌, ◌≤◌};
    ghost use Rattle.index_model.specs.Stages.{IsReachable};

    type Subject = u32;

    ghost stage_of = { λ b. b.stage };

    ghost subject = { λ b. b.file };

    ghost follows = { λ b c. (c.file ≡ b.file) × IsReachable b.stage c.stage };

    ghost fits = { λ _ s. s ≤ 5 };

    fn stage(&self) -> u8 {
        self.stage
    }

    ghost stays = { λ b c h. h.0 };

    ghost goes_on = { λ b c h. h.1 };
}

// The stage is 1, 2 and 3 from a quarter, a half and all of 10,000 turns on.
#[tactic(auto, using(stage_lock::proofs::Stages::reach_next))]
fn stage_after(stage: u8, turns: u32) -> u8
    requires { stage ≤ 5 }
    ensures stage { IsReachable stage result }
    ensures range { result ≤ 5 }
{
    match (stage, turns) {
        (0, 2_500) => 1,
        (1, 5_000) => 2,
        (2, 10_000) => 3,
        _ => stage,
    }
}

// One turn more.
fn step(build: &mut Build)
    ensures file { build.new.file ≡ build.old.file }
    ensures stage { IsReachable build.old.stage build.new.stage }
{
    build.turns = build.turns.saturating_add(1);
    build.stage = stage_after(build.stage, build.turns);
}

// A pass beside its lock, so that one value crosses threads.
#[derive(Drop)]
struct Worker<'l> {
    lock: &'l StageLock<Build>,
    pass: Pass<Build>,
    ghost own: { IsPassOf lock.now pass },
    ghost idle: { pass.holding ≡ false },
}

fn split_worker<'l>(lock: &'l StageLock<Build>, pass: &mut Pass<Build>) -> Worker<'l>
    requires own { IsPassOf lock.now pass.old }
    ensures parted { pass.new ≡ parted_pass pass.old }
{
    let pass = lock.split(pass);
    Worker { lock, pass }
}

// Enters, makes a step and leaves.
fn turn<R: Wait>(rt: &R, lock: &StageLock<Build>, pass: &mut Pass<Build>)
    requires own { IsPassOf lock.now pass.old }
    requires idle { pass.old.holding ≡ false }
    ensures own { IsPassOf lock.now pass.new }
    ensures idle { pass.new.holding ≡ false }
{
    let mut build = lock.enter(rt, pass);
    step(&mut build);
    lock.leave(pass, build);
}

// So many turns.
fn work<R: Wait>(rt: &R, worker: Worker<'_>, times: u32) {
    let Worker { lock, mut pass } = worker;
    for _ in 0..times {
        turn(rt, lock, &mut pass);
    }
}

// Marks until the stage is 3, and says whether no mark fell.
fn watch<R: Wait>(rt: &R, worker: Worker<'_>) -> bool {
    let Worker { lock, mut pass } = worker;
    let mut rising = true;
    let mut last = 0;
    for _ in rt.forever() {
        let stage = lock.mark(&mut pass);
        rising = rising && last <= stage;
        last = stage;
        if stage >= 3 {
            break;
        }
        yield_now();
    }
    rising
}

// Two threads make 5,000 turns each while a third marks. Whether no mark fell.
fn all_at_once<R: Threads + Wait + Sync>(
    rt: &R,
    first: Worker<'_>,
    second: Worker<'_>,
    third: Worker<'_>,
) -> bool {
    let ((), rising) = join(
        rt,
        || work(rt, first, 5_000),
        || join(rt, || work(rt, second, 5_000), || watch(rt, third)).1,
    );
    rising
}

fn rises<R: Threads + Wait + Sync>(rt: &R, lock: &StageLock<Build>, pass: &mut Pass<Build>) -> bool
    requires own { IsPassOf lock.now pass.old }
    requires idle { pass.old.holding ≡ false }
    ensures own { IsPassOf lock.now pass.new }
    ensures idle { pass.new.holding ≡ false }
{
    let first = split_worker(lock, pass);
    let second = split_worker(lock, pass);
    let third = split_worker(lock, pass);
    all_at_once(rt, first, second, third)
}

// The file, the stage and the turns at the end.
fn end(build: Option<Build>) -> Option<(u32, u8, u32)> {
    build.map(|build| (build.file, build.stage, build.turns))
}

// Whether no mark fell, and the build at the end.
fn counted<R: Threads + Wait + Sync>(
    rt: &R,
    alloc: Global,
) -> Result<(bool, Option<(u32, u8, u32)>), NoMemory> {
    let build = Build {
        file: 7,
        stage: 0,
        turns: 0,
    };
    let (lock, mut pass) = StageLock::new(alloc, build)?;
    let rising = rises(rt, &lock, &mut pass);
    Ok((rising, end(lock.close(pass))))
}

#[test]
fn turns_add_up_and_marks_never_fall(rt: HostRuntime) -> Result<(), NoMemory> {
    let counted = counted(&rt, rt.alloc())?;
    assert_eq!(rt; counted, (true, Some((7, 3, 10_000))));
    Ok(())
}

// The stage before a turn, within it, and for the pass that was left behind.
fn marks_around<R: Wait>(
    rt: &R,
    lock: &StageLock<Build>,
    pass: &mut Pass<Build>,
    mut other: Pass<Build>,
) -> (u8, u8, u8)
    requires own { IsPassOf lock.now pass.old }
    requires other { IsPassOf lock.now other }
    requires idle { other.holding ≡ false }
{
    let before = lock.mark(&mut other);
    let mut build = lock.enter(rt, &mut other);
    step(&mut build);
    let within = lock.mark(&mut other);
    lock.leave(&mut other, build);
    lock.join(pass, other);
    (before, within, lock.mark(pass))
}

fn marks<R: Wait>(rt: &R, alloc: Global) -> Result<(u8, u8, u8), NoMemory> {
    let build = Build {
        file: 7,
        stage: 0,
        turns: 2_499,
    };
    let (lock, mut pass) = StageLock::new(alloc, build)?;
    let other = lock.split(&mut pass);
    Ok(marks_around(rt, &lock, &mut pass, other))
}

#[test]
fn a_stage_is_published_by_leave(rt: HostRuntime) -> Result<(), NoMemory> {
    assert_eq!(rt; marks(&rt, rt.alloc())?, (0, 0, 1));
    Ok(())
}
