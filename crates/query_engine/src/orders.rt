//! The names of entries and their simple names, both sorted.

ghost use Rattle.std.specs.Prelude.{◌<◌, ◌^◌, List, length, All, IfOk};
ghost use Rattle.std.specs.Thread.{IsSync};
ghost use Rattle.index_model.specs.declared.entry.Entry.{Entry};
ghost use Rattle.query_engine.specs.Asked.{TailsFit};
ghost use Rattle.query_engine.specs.Labels.{IsWholeLabel};
ghost use Rattle.query_engine.specs.Marked.{AreLabelled, HaveFewLabels};
ghost use Rattle.query_engine.specs.Simple.{AreOrdersOf};
ghost use Rattle.query_engine.specs.Sorted.{AreNamesBy};
ghost use Rattle.query_engine.specs.declared.way.Way.TheVariants as ways;

use crate::halves::marks_by_halves;
use crate::marks::Labelled;
use crate::names::SortedNames;
use crate::simple::{SimpleNames, are_whole};
use crate::way::Way;
use index_model::Entry;
use std::alloc::{AllocError, Global};
use std::thread::{Threads, join};

/// The distinct names of entries, and their distinct simple names.
#[derive(Drop)]
pub(crate) struct Orders {
    pub by_name: SortedNames,
    pub by_simple: SimpleNames,
}

impl Orders {
    /// Those of these entries, which are halved so often for threads.
    pub fn of<R: Threads + Sync>(
        rt: &R,
        alloc: Global,
        halvings: u32,
        entries: &[Entry<'_>],
    ) -> Result<Orders, AllocError>
        requires few { length entries.now < 2 ^ 32 }
        requires tails { TailsFit entries.now }
        ensures { IfOk result (AreOrdersOf entries.now) }
    {
        let labelled = marks_by_halves(rt, alloc, halvings, entries, 0)?;
        if are_whole(&labelled.labels.list) {
            shared_orders(rt, alloc, halvings, &labelled)
        } else if halvings == 0 {
            orders_in_turn(rt, alloc, &labelled)
        } else {
            orders_at_once(rt, alloc, halvings, &labelled)
        }
    }
}

// One order for both, where each name is a simple name.
fn shared_orders<R: Threads + Sync>(
    rt: &R,
    alloc: Global,
    halvings: u32,
    labelled: &Labelled<'_>,
) -> Result<Orders, AllocError>
    requires few { HaveFewLabels labelled.now }
    requires whole { All (λ l. IsWholeLabel l.linkage l.tail l.name.now) labelled.now.labels.list.items }
    ensures { (entries : List Entry) → AreLabelled 0 entries labelled.now → IfOk result (AreOrdersOf entries) }
{
    let by_name = SortedNames::sorted(rt, alloc, Way::ByName, halvings, labelled)?;
    Ok(Orders {
        by_name,
        by_simple: SimpleNames::Shared,
    })
}

// The two orders one after the other.
fn orders_in_turn<R: Threads + Sync>(
    rt: &R,
    alloc: Global,
    labelled: &Labelled<'_>,
) -> Result<Orders, AllocError>
    requires { HaveFewLabels labelled.now }
    ensures { (entries : List Entry) → AreLabelled 0 entries labelled.now → IfOk result (AreOrdersOf entries) }
{
    let by_name = SortedNames::sorted(rt, alloc, Way::ByName, 0, labelled)?;
    let by_simple = SortedNames::sorted(rt, alloc, Way::BySimple, 0, labelled)?;
    Ok(Orders {
        by_name,
        by_simple: SimpleNames::Own(by_simple),
    })
}

// The same by two threads.
fn orders_at_once<R: Threads + Sync>(
    rt: &R,
    alloc: Global,
    halvings: u32,
    labelled: &Labelled<'_>,
) -> Result<Orders, AllocError>
    requires { HaveFewLabels labelled.now }
    ensures { (entries : List Entry) → AreLabelled 0 entries labelled.now → IfOk result (AreOrdersOf entries) }
{
    let names = || -> Result<SortedNames, AllocError>
        requires { IsSync R.row × HaveFewLabels labelled.now }
        ensures { (entries : List Entry) → AreLabelled 0 entries labelled.entry.now → IfOk result (AreNamesBy ways.ByName entries) }
    { SortedNames::sorted(rt, alloc, Way::ByName, halvings, labelled) };
    let simple = || -> Result<SortedNames, AllocError>
        requires { IsSync R.row × HaveFewLabels labelled.now }
        ensures { (entries : List Entry) → AreLabelled 0 entries labelled.entry.now → IfOk result (AreNamesBy ways.BySimple entries) }
    { SortedNames::sorted(rt, alloc, Way::BySimple, halvings, labelled) };
    let (names, simple) = join(rt, names, simple);
    let by_name = names?;
    let by_simple = simple?;
    Ok(Orders {
        by_name,
        by_simple: SimpleNames::Own(by_simple),
    })
}
