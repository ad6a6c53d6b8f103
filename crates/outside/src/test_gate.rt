//! A gate that holds jobs and readers until others have come, for tests of one order of threads.

use crate::gate::Gate;
use index_model::{Job, Moment};
use std::alloc::{AllocError, Global};
use std::sync::Wait;
use std::sync::atomic::AtomicBool;
use std::sync::atomic::Ordering::SeqCst;
use std::thread::yield_now;

/// How often a hold looks at its flag before it gives up.
pub const MAX_LOOKS: u64 = 1_000_000_000;

/// What comes to a gate.
#[derive(Clone, Copy, Debug, PartialEq, Eq)]
pub enum GateEvent {
    /// A job is at this moment.
    Job(Job, Moment),
    /// A reader has the reply to this line of its own.
    Asked { reader: u32, line: u64 },
}

/// One event is held until another has come.
#[derive(Clone, Copy)]
pub struct Hold {
    pub held: GateEvent,
    pub until: GateEvent,
}

// A hold, and what became of it.
#[derive(Drop)]
struct Held {
    hold: Hold,
    has_come: AtomicBool,
    is_met: AtomicBool,
}

/// A gate with holds. An event has come as soon as its call begins, before the call is held itself. A hold is met where what it
/// holds arrived, and went on because the other event had come. One that looked at its flag so often gives up, and isn't met.
#[derive(Drop)]
pub struct TestGate {
    holds: Vec<Held>,
    looks: u64,
}

impl TestGate {
    /// A gate with these holds, each of which gives up after `MAX_LOOKS` looks.
    ///
    /// # Errors
    ///
    /// `AllocError` where memory was refused.
    pub fn new(alloc: Global, holds: &[Hold]) -> Result<TestGate, AllocError> {
        TestGate::with_looks(alloc, holds, MAX_LOOKS)
    }

    /// A gate with these holds, each of which gives up after so many looks.
    ///
    /// # Errors
    ///
    /// `AllocError` where memory was refused.
    pub fn with_looks(alloc: Global, holds: &[Hold], looks: u64) -> Result<TestGate, AllocError> {
        let mut kept = Vec::with_capacity(alloc, holds.len())?;
        for hold in holds {
            kept.push(Held {
                hold: *hold,
                has_come: AtomicBool::new(false),
                is_met: AtomicBool::new(false),
            })?;
        }
        Ok(TestGate { holds: kept, looks })
    }

    /// Whether all holds were met.
    pub fn all_met(&self) -> bool {
        self.holds.iter().all(|held| held.is_met.load(SeqCst))
    }

    // An event comes, and is held then.
    fn come(&self, event: GateEvent) {
        for held in &self.holds {
            if held.hold.until == event {
                held.has_come.store(true, SeqCst);
            }
        }
        for held in &self.holds {
            if held.hold.held == event {
                held.wait(self.looks);
            }
        }
    }
}

impl Held {
    // Looks at the flag until the other event has come, at most so often.
    fn wait(&self, looks: u64) {
        for _ in 0..looks {
            if self.has_come.load(SeqCst) {
                self.is_met.store(true, SeqCst);
                return;
            }
            yield_now();
        }
    }
}

impl Gate for TestGate {
    fn arrive<R: Wait>(&self, _rt: &R, job: Job, moment: Moment) {
        self.come(GateEvent::Job(job, moment));
    }

    fn asked<R: Wait>(&self, _rt: &R, reader: u32, line: u64, _stage: u8) {
        self.come(GateEvent::Asked { reader, line });
    }
}
