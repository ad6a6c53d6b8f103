//! The entries of the index, by several threads.

ghost use Rattle.std.specs.Prelude.{◌++◌, IfOk};
ghost use Rattle.std.specs.Thread.{IsSync};
ghost use Rattle.index_model.specs.NameIndex.{all_indexed};
ghost use Rattle.query_engine.specs.Listed.{names_of};
ghost use Rattle.debugnames_write.specs.Items.{AreItemsOf, ArePartOf};

use crate::listed::{ListedItems, items_of};
use crate::part::ListedPart;
use crate::source::Source;
use std::alloc::{AllocError, Global};
use std::thread::{Threads, join};

// Fewer entries aren't worth a thread.
const LEAST: usize = 8192;

/// The entries of these names, without the names that have none. The entries are halved so often, and each part is done by a
/// thread of its own where one can be started.
#[cycle(halves)]
pub(crate) fn items_by_halves<'t, R: Threads + Sync>(
    rt: &R,
    alloc: Global,
    halvings: u32,
    source: &Source<'_, '_>,
    part: ListedPart<'_, 't>,
) -> Result<ListedItems<'t>, AllocError>
    requires { ArePartOf source.now part }
    ensures { IfOk result (AreItemsOf (all_indexed source.now.units.now source.now.entries.now) (names_of part.entry.names.now)) }
{
    if halvings > 0 && part.places.len() >= LEAST {
        let (low, high) = part.halves();
        items_of_halves(rt, alloc, halvings - 1, source, low, high)
    } else {
        items_of(alloc, source, part)
    }
}

// The same of both halves, each of which is halved so often.
#[cycle(halves)]
fn items_of_halves<'t, R: Threads + Sync>(
    rt: &R,
    alloc: Global,
    halvings: u32,
    source: &Source<'_, '_>,
    low: ListedPart<'_, 't>,
    high: ListedPart<'_, 't>,
) -> Result<ListedItems<'t>, AllocError>
    requires low_part { ArePartOf source.now low }
    requires high_part { ArePartOf source.now high }
    ensures { IfOk result (AreItemsOf (all_indexed source.now.units.now source.now.entries.now) (names_of (low.entry.names.now ++ high.entry.names.now))) }
{
    let front = || -> Result<ListedItems, AllocError>
        requires { IsSync R.row × ArePartOf source.now low }
        ensures { IfOk result (AreItemsOf (all_indexed source.entry.now.units.now source.entry.now.entries.now) (names_of low.entry.names.now)) }
    { items_by_halves(rt, alloc, halvings, source, low) };
    let back = || -> Result<ListedItems, AllocError>
        requires { IsSync R.row × ArePartOf source.now high }
        ensures { IfOk result (AreItemsOf (all_indexed source.entry.now.units.now source.entry.now.entries.now) (names_of high.entry.names.now)) }
    { items_by_halves(rt, alloc, halvings, source, high) };
    let (front, back) = join(rt, front, back);
    let mut listed = front?;
    let mut behind = back?;
    listed.names.append(&mut behind.names)?;
    listed.items.append(&mut behind.items)?;
    Ok(listed)
}
