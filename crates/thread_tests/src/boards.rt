//! index_board: a reader before a build, at its end, and of a board whose first job wants memory.

ghost use Rattle.std.specs.Prelude.{◌≡◌, false};
ghost use Rattle.index_board.specs.Marks.{marked};
ghost use Rattle.stage_lock.specs.Seen.{IsPassOf, parted_pass};

use index_board::{Board, Pass, Poll, Reader};
use index_model::{Answer, CacheKind, Look, Query, Reply};
use index_pool::build;
use ix_base::NoMemory;
use outside::NoGate;
use stage_core::Output;
use std::alloc::Global;
use std::sync::Wait;
use std::thread::Threads;
use test_files::programs::PLAIN;

/// The unit that was answered, or what was said in its place.
type Said = Result<Option<u32>, &'static str>;

/// The mark of a poll, and what it said.
type Polled = (u8, Said);

fn said_of(reply: &Reply<'_>) -> Said {
    match reply {
        Reply::Answer(Answer::Unit(unit)) => Ok(*unit),
        Reply::Pending => Err("pending"),
        Reply::Stopped => Err("stopped"),
        _ => Err("another reply"),
    }
}

// A poll of the unit at an address of `PLAIN`.
fn polled(reader: &mut Reader<'_, '_>) -> Polled
    ensures { reader.new ≡ marked reader.old result.0 }
{
    match reader.poll(&Query::Addr(0x101f)) {
        Poll::Done(Look { stage, reply }) => (stage, said_of(&reply)),
        Poll::Fetch(stage) => (stage, Err("to be fetched")),
    }
}

// Fetches all parts of a build that has ended.
fn fetches<R: Wait>(rt: &R, reader: &mut Reader<'_, '_>) -> bool
    ensures { reader.new.board ≡ reader.old.board }
{
    let fetched = reader.fetch(rt).is_ok();
    fetched && reader.cache().is_some() && reader.parts().summary.is_some()
}

// A poll by a new reader, which is told of what another has seen.
fn told<'f>(board: &Board<'f>, pass: &mut Pass<'f>, other: Pass<'f>) -> Polled
    requires own { IsPassOf board.now pass.old }
    requires other { IsPassOf board.now other }
    requires idle { other.holding ≡ false }
    ensures { pass.new ≡ parted_pass pass.old }
{
    let mut reader = board.reader(pass);
    reader.told(other);
    polled(&mut reader)
}

// Polls at the end of a build, before the parts are fetched and after. And whether all parts were fetched.
fn polls_at_the_end<R: Wait>(rt: &R, reader: &mut Reader<'_, '_>) -> ([Polled; 2], bool)
    ensures { reader.new.board ≡ reader.old.board }
{
    reader.wait(rt, 3);
    let before = polled(reader);
    let all = fetches(rt, reader);
    ([before, polled(reader)], all)
}

// A poll before a build, those at its end, and one by another reader that is told of the end.
fn polls_around<'f, R: Threads + Wait + Sync>(
    rt: &R,
    alloc: Global,
    board: &Board<'f>,
    pass: &mut Pass<'f>,
) -> (Polled, ([Polled; 2], bool), Polled)
    requires own { IsPassOf board.now pass.old }
    requires idle { pass.old.holding ≡ false }
    ensures own { IsPassOf board.now pass.new }
    ensures idle { pass.new.holding ≡ false }
{
    let mut reader = board.reader(pass);
    let before = polled(&mut reader);
    build(rt, alloc, board, pass, 1, &NoGate);
    let at_the_end = polls_at_the_end(rt, &mut reader);
    (before, at_the_end, told(board, pass, reader.end()))
}

fn polls<R: Threads + Wait + Sync>(
    rt: &R,
    alloc: Global,
) -> Result<(Polled, ([Polled; 2], bool), Polled), NoMemory> {
    let (board, mut pass) = Board::open(alloc, &PLAIN, CacheKind::Gdb8, 4)?;
    let polls = polls_around(rt, alloc, &board, &mut pass);
    board.close(pass);
    Ok(polls)
}

#[test]
fn a_reader_around_a_build(rt: HostRuntime) -> Result<(), NoMemory> {
    let polls = polls(&rt, rt.alloc())?;
    let at_the_end = [(3, Err("to be fetched")), (3, Ok(Some(0)))];
    let wanted = (
        (0, Err("pending")),
        (at_the_end, true),
        (3, Err("to be fetched")),
    );
    assert_eq!(rt; polls, wanted);
    Ok(())
}

// The first job is one that wants memory.
fn want_memory<'f, R: Wait>(rt: &R, board: &Board<'f>, pass: &mut Pass<'f>)
    requires own { IsPassOf board.now pass.old }
    requires idle { pass.old.holding ≡ false }
    ensures own { IsPassOf board.now pass.new }
    ensures idle { pass.new.holding ≡ false }
{
    if let Some(task) = board.draw(rt, pass) {
        board.finish(rt, pass, task.job(), Output::Memory);
    }
}

// A poll by a reader from before memory was wanted.
fn poll_behind<'f, R: Wait>(rt: &R, board: &Board<'f>, pass: &mut Pass<'f>) -> Polled
    requires own { IsPassOf board.now pass.old }
    requires idle { pass.old.holding ≡ false }
    ensures own { IsPassOf board.now pass.new }
    ensures idle { pass.new.holding ≡ false }
{
    let mut reader = board.reader(pass);
    want_memory(rt, board, pass);
    polled(&mut reader)
}

fn poll_of_stopped<R: Wait>(rt: &R, alloc: Global) -> Result<Polled, NoMemory> {
    let (board, mut pass) = Board::open(alloc, &PLAIN, CacheKind::Gdb8, 4)?;
    let polled = poll_behind(rt, &board, &mut pass);
    board.close(pass);
    Ok(polled)
}

#[test]
fn want_of_memory_stops_a_board(rt: HostRuntime) -> Result<(), NoMemory> {
    let polled = poll_of_stopped(&rt, rt.alloc())?;
    assert_eq!(rt; polled, (5, Err("stopped")));
    Ok(())
}
