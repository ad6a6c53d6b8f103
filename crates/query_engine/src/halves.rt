//! Marks of entries, by several threads.

ghost use Rattle.std.specs.Prelude.{◌<◌, ◌^◌, ◌+◌, ◌++◌, length, IfOk};
ghost use Rattle.std.specs.Thread.{IsSync};
ghost use Rattle.query_engine.specs.Asked.{TailsFit};
ghost use Rattle.query_engine.specs.Marked.{AreLabelled};

use crate::marks::{Labelled, marks_of};
use index_model::Entry;
use std::alloc::{AllocError, Global};
use std::thread::{Threads, join};

// Fewer entries aren't worth a thread.
const LEAST: usize = 8192;

/// The marks of all entries. The first one has this place. The entries are halved so often, and
/// each part is done by a thread of its own where one can be started.
#[cycle(halves)]
pub(crate) fn marks_by_halves<'r, R: Threads + Sync>(
    rt: &R,
    alloc: Global,
    halvings: u32,
    entries: &'r [Entry<'_>],
    first: usize,
) -> Result<Labelled<'r>, AllocError>
    requires few { first + length entries.now < 2 ^ 32 }
    requires tails { TailsFit entries.now }
    ensures { IfOk result (AreLabelled first entries.now) }
{
    if halvings > 0 && entries.len() >= LEAST {
        let (low, high) = entries.split_at(entries.len() / 2);
        marks_of_halves(rt, alloc, halvings - 1, low, high, first)
    } else {
        marks_of(alloc, entries, first)
    }
}

// The same of both halves, each of which is halved so often. A label gets one number in both.
#[cycle(halves)]
fn marks_of_halves<'r, R: Threads + Sync>(
    rt: &R,
    alloc: Global,
    halvings: u32,
    low: &'r [Entry<'_>],
    high: &'r [Entry<'_>],
    first: usize,
) -> Result<Labelled<'r>, AllocError>
    requires few { first + length low.now + length high.now < 2 ^ 32 }
    requires low_tails { TailsFit low.now }
    requires high_tails { TailsFit high.now }
    ensures { IfOk result (AreLabelled first (low.now ++ high.now)) }
{
    let behind = first + low.len();
    let front = || -> Result<Labelled, AllocError>
        requires { IsSync R.row × (first + length low.now < 2 ^ 32) × TailsFit low.now }
        ensures { IfOk result (AreLabelled first low.entry.now) }
    { marks_by_halves(rt, alloc, halvings, low, first) };
    let back = || -> Result<Labelled, AllocError>
        requires { IsSync R.row × (behind + length high.now < 2 ^ 32) × TailsFit high.now }
        ensures { IfOk result (AreLabelled behind high.entry.now) }
    { marks_by_halves(rt, alloc, halvings, high, behind) };
    let (front, back) = join(rt, front, back);
    let mut labelled = front?;
    labelled.take_in(alloc, back?)?;
    Ok(labelled)
}
