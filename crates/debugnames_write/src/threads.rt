//! How many threads share work.

ghost use Rattle.std.specs.Prelude.{◌<◌};

use std::thread::{Threads, join};

// Fewer items aren't worth a thread.
const LEAST: usize = 8192;

// Work isn't halved more often.
const MOST_HALVINGS: u32 = 8;

/// How many threads share work over so many items that is halved so often.
pub(crate) fn threads_for(halvings: u32, items: usize) -> usize
    ensures { 0 < result }
{
    if items < LEAST {
        1
    } else {
        1 << halvings.min(MOST_HALVINGS)
    }
}

/// What two closures give. Where work is halved for threads, the first is called on a thread of its own if one can be started.
pub(crate) fn both<R: Threads, F: FnOnce() -> A + Send, G: FnOnce() -> B, A: Send, B>(
    rt: &R,
    halvings: u32,
    first: F,
    second: G,
) -> (A, B)
    requires { F.pre first × G.pre second }
    ensures first { F.post first result.0 }
    ensures second { G.post second result.1 }
{
    if halvings == 0 {
        (first(), second())
    } else {
        join(rt, first, second)
    }
}
