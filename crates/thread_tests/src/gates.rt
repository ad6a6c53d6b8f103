//! outside: gates.

use index_model::{Job, Moment};
use outside::{Gate, GateEvent, Hold, TestGate};
use std::sync::Wait;
use std::test::Fail;
use std::thread::join;

/// A job begins.
pub(crate) fn begin(job: Job) -> GateEvent {
    GateEvent::Job(job, Moment::Begin)
}

/// Each of both is held until the other has come.
pub(crate) fn each_other(first: GateEvent, second: GateEvent) -> [Hold; 2] {
    [
        Hold {
            held: first,
            until: second,
        },
        Hold {
            held: second,
            until: first,
        },
    ]
}

#[test]
fn two_threads_hold_each_other_until_both_have_come(rt: HostRuntime) -> Result<(), Fail> {
    let (first, second) = (Job::Scan(0), Job::Scan(1));
    let gate = TestGate::new(rt.alloc(), &each_other(begin(first), begin(second)))?;
    join(
        &rt,
        || gate.arrive(&rt, first, Moment::Begin),
        || gate.arrive(&rt, second, Moment::Begin),
    );
    assert!(rt; gate.all_met());
    Ok(())
}

// Another moment, another reader and another line.
fn meets_others<R: Wait>(rt: &R, gate: &TestGate) -> bool {
    gate.arrive(rt, Job::Main, Moment::End);
    gate.asked(rt, 2, 2, 0);
    gate.asked(rt, 1, 1, 0);
    gate.arrive(rt, Job::Main, Moment::Begin);
    gate.all_met()
}

fn meets_the_event<R: Wait>(rt: &R, gate: &TestGate) -> bool {
    gate.asked(rt, 1, 2, 0);
    gate.arrive(rt, Job::Main, Moment::Begin);
    gate.all_met()
}

#[test]
fn a_hold_whose_event_does_not_come_gives_up(rt: HostRuntime) -> Result<(), Fail> {
    let holds = [Hold {
        held: begin(Job::Main),
        until: GateEvent::Asked { reader: 1, line: 2 },
    }];
    let gate = TestGate::with_looks(rt.alloc(), &holds, 3)?;
    let (others, the_event) = (meets_others(&rt, &gate), meets_the_event(&rt, &gate));
    assert_eq!(rt; (others, the_event), (false, true));
    Ok(())
}
