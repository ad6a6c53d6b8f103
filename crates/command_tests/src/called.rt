//! A call of `run` over files, an input and an output in memory, at a gate.

use index_cmd::run;
use index_model::{Job, Moment};
use outside::{GateEvent, Hold, MemShelf, MemSink, MemSource, TestGate};
use std::alloc::{AllocError, Global};
use std::process::Abort;
use std::sync::Wait;
use std::test::Fail;
use std::thread::Threads;

/// What a call is made over.
#[derive(Drop)]
pub(crate) struct Outside {
    pub shelf: MemShelf,
    pub input: MemSource,
    pub out: MemSink,
}

impl Outside {
    /// The names X and T hold the program and the script.
    pub(crate) fn new(
        alloc: Global,
        program: &[u8],
        script: &[u8],
        input: &[u8],
    ) -> Result<Outside, Fail> {
        let mut shelf = MemShelf::new(alloc);
        shelf.put("X", program)?;
        shelf.put("T", script)?;
        Ok(Outside {
            shelf,
            input: MemSource::new(alloc, input)?,
            out: MemSink::new(alloc),
        })
    }

    /// The status of the words. Each hold has to be met.
    pub(crate) fn run<R: Threads + Wait + Sync>(
        &mut self,
        rt: &R,
        alloc: Global,
        words: &[&str],
        holds: &[Hold],
    ) -> Result<u8, Fail> {
        let line = line_of(alloc, words)?;
        let gate = TestGate::new(alloc, holds)?;
        let status = self.run_at(rt, alloc, &line, &gate);
        if !gate.all_met() {
            return Err(Fail::from("a hold gave up"));
        }
        Ok(status)
    }

    fn run_at<R: Threads + Wait + Sync>(
        &mut self,
        rt: &R,
        alloc: Global,
        line: &[String],
        gate: &TestGate,
    ) -> u8 {
        let Outside { shelf, input, out } = self;
        run(rt, alloc, line, shelf, input, out, gate)
    }

    /// Whether this is all that was written.
    pub(crate) fn has_written(&self, text: &[u8]) -> bool {
        self.out.bytes() == text
    }
}

fn line_of(alloc: Global, words: &[&str]) -> Result<Vec<String>, AllocError> {
    let mut line = Vec::new(alloc);
    for word in words {
        line.push(String::from_str(alloc, word)?)?;
    }
    Ok(line)
}

// Asserts a status and a text.
fn assert_are<R: Abort>(
    rt: &R,
    alloc: Global,
    got: (u8, &[u8]),
    want: (u8, &str),
) -> Result<(), Fail> {
    let text = String::from_utf8_lossy(alloc, got.1)?;
    assert_eq!(rt; (got.0, text.as_str()), want);
    Ok(())
}

/// Asserts the status of the words and what was written, of a program, a script and an input, where each hold has to be met.
pub(crate) fn assert_tells<R: Abort + Threads + Wait + Sync>(
    rt: &R,
    alloc: Global,
    files: [&[u8]; 2],
    input: &[u8],
    words: &[&str],
    holds: &[Hold],
    want: (u8, &str),
) -> Result<(), Fail> {
    let mut outside = Outside::new(alloc, files[0], files[1], input)?;
    let status = outside.run(rt, alloc, words, holds)?;
    assert_are(rt, alloc, (status, outside.out.bytes()), want)
}

/// A job begins only once something has come.
pub(crate) fn begins_after(job: Job, until: GateEvent) -> Hold {
    Hold {
        held: GateEvent::Job(job, Moment::Begin),
        until,
    }
}

/// A reader that was answered a line goes on only once a job has ended.
pub(crate) fn goes_on_after(line: u64, job: Job) -> Hold {
    Hold {
        held: asked(0, line),
        until: GateEvent::Job(job, Moment::End),
    }
}

pub(crate) fn asked(reader: u32, line: u64) -> GateEvent {
    GateEvent::Asked { reader, line }
}
