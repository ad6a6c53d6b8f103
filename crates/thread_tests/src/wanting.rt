//! index_board and index_pool: a job of each kind wants memory, while a reader asks before and after; and what a job made is
//! published when the gate is told of its end.

ghost use Rattle.std.specs.Prelude.{◌≡◌, false};
ghost use Rattle.stage_lock.specs.Seen.{IsPassOf};

use index_board::{Board, Pass, Reader};
use index_model::{CacheKind, Job, Look, Moment, Query, Reply};
use index_pool::{Ended, work};
use outside::{Gate, GateEvent, Hold, TestGate};
use stage_core::Output;
use std::alloc::Global;
use std::sync::Wait;
use std::test::Fail;
use std::thread::{Threads, for_each_mut};
use test_files::programs::PLAIN;

/// What a reader sees: the stage at which it asked for the unit at an address, whether it was told that the build has stopped, and
/// whether it keeps a summary, a table and an index.
type Seen = (u8, bool, [bool; 3]);

/// No job of these builds, by which threads wait for each other at a gate.
const SIGNAL: Job = Job::Scan(99);

/// What one of two threads does.
#[derive(Clone, Copy, Drop)]
enum Part {
    /// Takes over a job that a worker has begun.
    TakesOver(Job),
    /// Asks while a worker is held.
    Asks,
    Builds,
}

/// One of two threads, with a pass beside its board, and what it came to.
#[derive(Drop)]
struct Player<'b, 'f> {
    part: Part,
    alloc: Global,
    board: &'b Board<'f>,
    pass: Pass<'f>,
    before: Option<Seen>,
    after: Option<Seen>,
    ended: Option<Ended>,
    ghost own: { IsPassOf board.now pass },
    ghost idle: { pass.holding ≡ false },
}

fn seen<R: Wait>(rt: &R, reader: &mut Reader<'_, '_>) -> Option<Seen> {
    let (stage, is_stopped) = match reader.query(rt, &Query::Addr(0x101f)) {
        Ok(Look { stage, reply }) => (stage, matches!(reply, Reply::Stopped)),
        Err(_) => return None,
    };
    reader.fetch(rt).ok()?;
    let parts = reader.parts();
    let kept = [
        parts.summary.is_some(),
        parts.table.is_some(),
        parts.cache.is_some(),
    ];
    Some((stage, is_stopped, kept))
}

impl<'b, 'f> Player<'b, 'f> {
    fn new(part: Part, alloc: Global, board: &'b Board<'f>, pass: Pass<'f>) -> Player<'b, 'f>
        requires own { IsPassOf board.now pass }
        requires idle { pass.holding ≡ false }
    {
        Player {
            part,
            alloc,
            board,
            pass,
            before: None,
            after: None,
            ended: None,
        }
    }

    fn play<R: Threads + Wait + Sync>(&mut self, rt: &R, gate: &TestGate) {
        match self.part {
            Part::TakesOver(job) => self.take_over(rt, job, gate),
            Part::Asks => self.ask(rt, gate),
            Part::Builds => {
                self.ended = Some(work(rt, self.alloc, self.board, &mut self.pass, gate));
            }
        }
    }

    // The job wants memory. What a reader sees before and after.
    fn take_over<R: Wait>(&mut self, rt: &R, job: Job, gate: &TestGate) {
        let board = self.board;
        let mut reader = board.reader(&mut self.pass);
        gate.arrive(rt, SIGNAL, Moment::Begin);
        self.before = seen(rt, &mut reader);
        board.finish(rt, &mut self.pass, job, Output::Memory);
        self.after = seen(rt, &mut reader);
        gate.arrive(rt, SIGNAL, Moment::End);
    }

    // What a reader sees.
    fn ask<R: Wait>(&mut self, rt: &R, gate: &TestGate) {
        let board = self.board;
        let mut reader = board.reader(&mut self.pass);
        gate.arrive(rt, SIGNAL, Moment::Begin);
        self.before = seen(rt, &mut reader);
        gate.arrive(rt, SIGNAL, Moment::End);
    }
}

// A worker is held at this moment of a job until the other thread is done.
fn holds_at(job: Job, moment: Moment) -> [Hold; 2] {
    let held = GateEvent::Job(job, moment);
    [
        Hold {
            held: GateEvent::Job(SIGNAL, Moment::Begin),
            until: held,
        },
        Hold {
            held,
            until: GateEvent::Job(SIGNAL, Moment::End),
        },
    ]
}

/// What a reader saw while a worker was held, what it saw once the job had wanted memory, and how the build ended.
type Played = (Option<Seen>, Option<Seen>, Option<Ended>);

// A build by one worker, which is held at this moment of a job, while the other thread does its part.
fn played_at<R: Threads + Wait + Sync>(
    rt: &R,
    alloc: Global,
    part: Part,
    job: Job,
    moment: Moment,
) -> Result<Played, Fail> {
    let gate = TestGate::new(alloc, &holds_at(job, moment))?;
    let (board, mut pass) = Board::open(alloc, &PLAIN, CacheKind::Gdb8, 1)?;
    let played = played(rt, alloc, &board, &mut pass, part, &gate);
    board.close(pass);
    Ok(played)
}

fn played<'f, R: Threads + Wait + Sync>(
    rt: &R,
    alloc: Global,
    board: &Board<'f>,
    pass: &mut Pass<'f>,
    part: Part,
    gate: &TestGate,
) -> Played
    requires own { IsPassOf board.now pass.old }
    requires idle { pass.old.holding ≡ false }
    ensures own { IsPassOf board.now pass.new }
    ensures idle { pass.new.holding ≡ false }
{
    let (own, other) = (board.split(pass), board.split(pass));
    let mut players = [
        Player::new(part, alloc, board, own),
        Player::new(Part::Builds, alloc, board, other),
    ];
    for_each_mut(
        rt,
        &mut players,
        2,
        &|_number, player| { player.play(rt, gate) },
    );
    let (reader, builder) = (&players[0], &players[1]);
    (reader.before, reader.after, builder.ended)
}

#[test]
fn a_job_of_each_kind_wants_memory(rt: HostRuntime) -> Result<(), Fail> {
    let (none, summary, table) = ([false; 3], [true, false, false], [true, true, false]);
    let kinds = [
        (Job::Scan(0), 0, none),
        (Job::Link(0), 0, none),
        (Job::Main, 0, none),
        (Job::Name(0), 1, summary),
        (Job::Merge, 1, summary),
        (Job::Write, 2, table),
    ];
    for (job, stage, kept) in kinds {
        let part = Part::TakesOver(job);
        let stopped = played_at(&rt, rt.alloc(), part, job, Moment::Begin)?;
        let (before, after) = ((stage, false, kept), (5, true, kept));
        assert_eq!(rt; stopped, (Some(before), Some(after), Some(Ended::Stopped)));
    }
    Ok(())
}

#[test]
fn what_a_job_made_is_published_at_its_end(rt: HostRuntime) -> Result<(), Fail> {
    let (none, summary, table) = ([false; 3], [true, false, false], [true, true, false]);
    let kinds = [
        (Job::Scan(0), 0, none),
        (Job::Link(0), 0, none),
        (Job::Main, 1, summary),
        (Job::Name(0), 1, summary),
        (Job::Merge, 2, table),
        (Job::Write, 3, [true; 3]),
    ];
    for (job, stage, kept) in kinds {
        let told = played_at(&rt, rt.alloc(), Part::Asks, job, Moment::End)?;
        assert_eq!(rt; told, (Some((stage, false, kept)), None, Some(Ended::Done)));
    }
    Ok(())
}
