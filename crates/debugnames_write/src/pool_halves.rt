//! The entry pool, by several threads.

ghost use Rattle.std.specs.Prelude.{◌≡◌, ◌++◌, All, IfOk, OnOk};
ghost use Rattle.std.specs.Thread.{IsSync};
ghost use Rattle.debugnames_write.specs.Laid.{pool_bytes};
ghost use Rattle.debugnames_write.specs.Names.{HaveRows};

use crate::abbreviations::Abbreviations;
use crate::name::Name;
use crate::pool::push_pool;
use std::alloc::{AllocError, Global};
use std::thread::{Threads, join};

// Fewer names aren't worth a thread.
const LEAST: usize = 1024;

/// Appends the entries of all names. Where the names are to be halved for threads, the halves are put together first.
pub(crate) fn push_pool_by_halves<R: Threads + Sync>(
    rt: &R,
    alloc: Global,
    halvings: u32,
    out: &mut Vec<u8>,
    abbreviations: &Abbreviations,
    names: &[Name<'_>],
) -> Result<(), AllocError>
    requires { All (λ n. HaveRows abbreviations.now n.items.now) names.now }
    ensures { OnOk result (out.new.items ≡ out.old.items ++ pool_bytes abbreviations.now names.now) }
{
    if halvings == 0 {
        push_pool(out, abbreviations, names)
    } else {
        let mut pool = pool_by_halves(rt, alloc, halvings, abbreviations, names)?;
        out.append(&mut pool)
    }
}

// The entries of all names. The names are halved so often, and each part is done by a thread of its own where one can be
// started.
#[cycle(pool)]
fn pool_by_halves<R: Threads + Sync>(
    rt: &R,
    alloc: Global,
    halvings: u32,
    abbreviations: &Abbreviations,
    names: &[Name<'_>],
) -> Result<Vec<u8>, AllocError>
    requires { All (λ n. HaveRows abbreviations.now n.items.now) names.now }
    ensures { IfOk result (λ v. v.items ≡ pool_bytes abbreviations.now names.now) }
{
    if halvings > 0 && names.len() >= LEAST {
        let (low, high) = names.split_at(names.len() / 2);
        pool_of_halves(rt, alloc, halvings - 1, abbreviations, low, high)
    } else {
        let mut pool = Vec::new(alloc);
        push_pool(&mut pool, abbreviations, names)?;
        Ok(pool)
    }
}

// The same of both halves, each of which is halved so often.
#[cycle(pool)]
fn pool_of_halves<R: Threads + Sync>(
    rt: &R,
    alloc: Global,
    halvings: u32,
    abbreviations: &Abbreviations,
    low: &[Name<'_>],
    high: &[Name<'_>],
) -> Result<Vec<u8>, AllocError>
    requires low_rows { All (λ n. HaveRows abbreviations.now n.items.now) low.now }
    requires high_rows { All (λ n. HaveRows abbreviations.now n.items.now) high.now }
    ensures { IfOk result (λ v. v.items ≡ pool_bytes abbreviations.now (low.now ++ high.now)) }
{
    let front = || -> Result<Vec<u8>, AllocError>
        requires { IsSync R.row × All (λ n. HaveRows abbreviations.now n.items.now) low.now }
        ensures { IfOk result (λ v. v.items ≡ pool_bytes abbreviations.entry.now low.entry.now) }
    { pool_by_halves(rt, alloc, halvings, abbreviations, low) };
    let back = || -> Result<Vec<u8>, AllocError>
        requires { IsSync R.row × All (λ n. HaveRows abbreviations.now n.items.now) high.now }
        ensures { IfOk result (λ v. v.items ≡ pool_bytes abbreviations.entry.now high.entry.now) }
    { pool_by_halves(rt, alloc, halvings, abbreviations, high) };
    let (front, back) = join(rt, front, back);
    let mut pool = front?;
    let mut behind = back?;
    pool.append(&mut behind)?;
    Ok(pool)
}
