//! index_pool: builds by several workers, also at gates, which hold jobs until others have come.

ghost use Rattle.std.specs.Prelude.{◌≡◌, ◌<◌, ◌≤◌, length};
ghost use Rattle.ix_base.specs.declared.limits.TheConstants.{MAX_FILE_BYTES};
ghost use Rattle.stage_lock.specs.Seen.{IsPassOf, parted_pass};

use crate::gates::{begin, each_other};
use index_board::{Board, Pass};
use index_model::{Answer, CacheKind, Job, Look, Moment, Query, Reply};
use index_pool::{Ended, build};
use ix_base::{Fault, NoMemory};
use outside::{GateEvent, Hold, TestGate};
use std::alloc::Global;
use std::sync::Wait;
use std::test::Fail;
use std::thread::Threads;
use test_files::programs::{PLAIN, THREE_UNITS, TWO_DAMAGED_UNITS};

/// The joint offset of the only entry that was answered, or the fault for which there is no answer.
type Said = Result<u64, Option<Fault>>;

fn said_of(reply: &Reply<'_>) -> Said {
    match reply {
        Reply::Refused(fault) => Err(Some(*fault)),
        Reply::Answer(Answer::Entries(hits)) => match hits.places {
            [place] => hits
                .entries
                .get(*place as usize)
                .map(|entry| entry.offset)
                .ok_or(None),
            _ => Err(None),
        },
        _ => Err(None),
    }
}

// The mark at which a name is asked, and what is replied.
fn asked<'f, R: Wait>(rt: &R, board: &Board<'f>, pass: &mut Pass<'f>, name: &[u8]) -> (u8, Said)
    requires { IsPassOf board.now pass.old }
    ensures { pass.new ≡ parted_pass pass.old }
{
    let mut reader = board.reader(pass);
    match reader.query(rt, &Query::Name(name)) {
        Ok(Look { stage, reply }) => (stage, said_of(&reply)),
        Err(_) => (0, Err(None)),
    }
}

// How the build of a file in so many runs by so many workers ends, and what is replied to a name then.
fn built<R: Threads + Wait + Sync>(
    rt: &R,
    alloc: Global,
    file: &[u8],
    shards: u32,
    workers: u32,
    gate: &TestGate,
    name: &[u8],
) -> Result<(Ended, (u8, Said)), NoMemory>
    requires small { length file.now ≤ MAX_FILE_BYTES }
    requires shards { 0 < shards }
    requires few_shards { shards ≤ 256 }
    requires workers { 0 < workers }
    requires few_workers { workers ≤ 64 }
{
    let (board, mut pass) = Board::open(alloc, file, CacheKind::Gdb8, shards)?;
    let ended = build(rt, alloc, &board, &mut pass, workers, gate);
    let asked = asked(rt, &board, &mut pass, name);
    board.close(pass);
    Ok((ended, asked))
}

#[test]
fn one_two_and_eight_workers_build_the_same(rt: HostRuntime) -> Result<(), Fail> {
    let gate = TestGate::new(rt.alloc(), &[])?;
    for workers in [1, 2, 8] {
        let got = built(&rt, rt.alloc(), &PLAIN, 4, workers, &gate, b"main")?;
        assert_eq!(rt; got, (Ended::Done, (3, Ok(0x1e))), "{workers} workers");
    }
    Ok(())
}

// One thread can't begin a job while it is held in another.
#[test]
fn two_scans_each_wait_until_the_other_has_begun(rt: HostRuntime) -> Result<(), Fail> {
    let holds = each_other(begin(Job::Scan(0)), begin(Job::Scan(1)));
    let gate = TestGate::new(rt.alloc(), &holds)?;
    let got = built(&rt, rt.alloc(), &THREE_UNITS, 2, 2, &gate, b"ns::C::f")?;
    let wanted = (Ended::Done, (3, Ok(0x13)));
    assert_eq!(rt; (got, gate.all_met()), (wanted, true));
    Ok(())
}

#[test]
fn the_earlier_fault_counts_though_it_is_found_later(rt: HostRuntime) -> Result<(), Fail> {
    let holds = [Hold {
        held: begin(Job::Scan(2)),
        until: GateEvent::Job(Job::Scan(7), Moment::End),
    }];
    let gate = TestGate::new(rt.alloc(), &holds)?;
    let got = built(&rt, rt.alloc(), &TWO_DAMAGED_UNITS, 10, 8, &gate, b"main")?;
    let fault = Fault { code: 11, at: 0x60 };
    let wanted = (Ended::Refused, (4, Err(Some(fault))));
    assert_eq!(rt; (got, gate.all_met()), (wanted, true));
    Ok(())
}
