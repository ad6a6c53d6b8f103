//! A gate, which is told of each job that begins and ends and of each reply to a look-up.

use index_model::{Job, Moment};
use std::sync::Wait;

/// Is told where workers and sessions are. Its calls may wait, and answer nothing: a gate decides when a job or a session goes
/// on, and never what it does.
pub trait Gate {
    /// A worker is at this moment of a job: it drew the job and is to do it, or it published the job's end.
    fn arrive<R: Wait>(&self, rt: &R, job: Job, moment: Moment);

    /// A session wrote the reply to a look-up. Its lines count from 1, bad queries among them. The stage is that of the reply.
    /// The reader is the session's number.
    fn asked<R: Wait>(&self, rt: &R, reader: u32, line: u64, stage: u8);
}

/// A gate that holds nobody.
#[derive(Clone, Copy, Drop)]
pub struct NoGate;

impl Gate for NoGate {
    fn arrive<R: Wait>(&self, _rt: &R, _job: Job, _moment: Moment) {}

    fn asked<R: Wait>(&self, _rt: &R, _reader: u32, _line: u64, _stage: u8) {}
}
