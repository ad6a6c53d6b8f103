//! query_text: what the gate of a session is told, and when.

ghost use Rattle.std.specs.Prelude.{◌≡◌, None, false};
ghost use Rattle.stage_lock.specs.Seen.{IsPassOf};

use index_board::{Board, Pass, Reader};
use index_model::{CacheKind, Job, Moment};
use index_pool::build;
use name_quotes::Spelling;
use outside::{Failed, Gate, MemSource, NoGate, Sink};
use query_text::{LineBuf, session};
use std::alloc::Global;
use std::cell::Cell;
use std::sync::Wait;
use std::test::Fail;
use test_files::programs::PLAIN;

/// Counts the bytes that are written to it.
#[derive(Drop)]
struct Counter<'c> {
    written: &'c Cell<usize>,
}

impl Sink for Counter<'_> {
    ghost write_faults = { λ _. 0 };

    ghost written = { λ _. None };

    fn write(&mut self, piece: &[u8]) -> Result<usize, Failed> {
        self.written
            .set(self.written.get().saturating_add(piece.len()));
        Ok(piece.len())
    }
}

/// One call of the gate by a session: the session, the line, the stage, and how many bytes were written before it.
type Told = (u32, u64, u8, usize);

/// Keeps the last two calls by sessions, the later one behind the other.
#[derive(Drop)]
struct Recorder<'c> {
    written: &'c Cell<usize>,
    told: Cell<[Option<Told>; 2]>,
}

impl Gate for Recorder<'_> {
    fn arrive<R: Wait>(&self, _rt: &R, _job: Job, _moment: Moment) {}

    fn asked<R: Wait>(&self, _rt: &R, session: u32, line: u64, stage: u8) {
        let told = (session, line, stage, self.written.get());
        let [_, last] = self.told.get();
        self.told.set([last, Some(told)]);
    }
}

// The last two calls of the gate by a session that ended, and how many bytes it wrote.
type Seen = ([Option<Told>; 2], usize);

fn seen<R: Wait>(
    rt: &R,
    reader: &mut Reader<'_, '_>,
    input: &mut MemSource,
    line: &mut LineBuf,
) -> Option<Seen> {
    let written = Cell::new(0);
    let mut out = Counter { written: &written };
    let gate = Recorder {
        written: &written,
        told: Cell::new([None; 2]),
    };
    let ended = session(rt, 7, Spelling::Plain, reader, input, &mut out, line, &gate).is_ok();
    ended.then_some((gate.told.get(), written.get()))
}

// A session with these lines.
fn asked<'f, R: Wait>(
    rt: &R,
    alloc: Global,
    board: &Board<'f>,
    pass: &mut Pass<'f>,
    lines: &[u8],
) -> Option<Seen>
    requires own { IsPassOf board.now pass.old }
    requires idle { pass.old.holding ≡ false }
    ensures own { IsPassOf board.now pass.new }
    ensures idle { pass.new.holding ≡ false }
{
    let mut line = LineBuf::new(alloc).ok()?;
    let mut input = MemSource::new(alloc, lines).ok()?;
    let mut reader = board.reader(pass);
    seen(rt, &mut reader, &mut input, &mut line)
}

#[test]
fn a_gate_is_told_of_each_reply_once_it_is_written(rt: HostRuntime) -> Result<(), Fail> {
    let alloc = rt.alloc();
    let (board, mut pass) = Board::open(alloc, &PLAIN, CacheKind::Gdb8, 4).map_err(|_| "memory")?;
    build(&rt, alloc, &board, &mut pass, 1, &NoGate);
    let seen = asked(&rt, alloc, &board, &mut pass, b"main\n\nname x");
    board.close(pass);
    // `3 main c main`, `- bad query` and `3 found 0`
    let told = [Some((7, 1, 3, 14)), Some((7, 3, 3, 36))];
    assert_eq!(rt; seen, Some((told, 14 + 12 + 10)));
    Ok(())
}
