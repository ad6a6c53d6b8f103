//! What a worker is handed.

ghost use Rattle.std.specs.Prelude.{◌≡◌};
ghost use Rattle.stage_core.specs.Tasks.{task_seen};

use crate::output::Parts;
use index_model::{CacheKind, Job, Linked, Run, Shard};
use std::sync::Arc;

/// Shards, shared as one list.
pub type Shards<'f> = Arc<Vec<Arc<Shard<'f>>>>;

/// Links, shared as one list.
pub type Links<'f> = Arc<Vec<Arc<Linked<'f>>>>;

/// A job and what it needs. All lists are in the order of the jobs that made them.
#[derive(Drop)]
pub enum Task<'f> {
    /// The number of the first unit of the run, in section order and counted from 0, and how many units it has.
    Scan {
        run: u32,
        first: u32,
        count: u32,
    },
    /// What the Scan jobs made.
    Link {
        run: u32,
        shards: Shards<'f>,
    },
    /// What the Scan jobs and the Link jobs made.
    Main {
        shards: Shards<'f>,
        linked: Links<'f>,
    },
    /// As for Main.
    Name {
        run: u32,
        shards: Shards<'f>,
        linked: Links<'f>,
    },
    /// What the Name jobs made.
    Merge(Vec<Run<'f>>),
    /// What has been published, and which index is to be written.
    Write {
        published: Parts<'f>,
        kind: CacheKind,
    },
}

impl Task<'_> {
    /// Its job.
    pub fn job(&self) -> Job
        ensures { result ≡ (task_seen self.now).job }
    {
        match self {
            Task::Scan { run, .. } => Job::Scan(*run),
            Task::Link { run, .. } => Job::Link(*run),
            Task::Main { .. } => Job::Main,
            Task::Name { run, .. } => Job::Name(*run),
            Task::Merge(_) => Job::Merge,
            Task::Write { .. } => Job::Write,
        }
    }
}
