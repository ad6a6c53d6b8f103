//! query_engine. Four threads share the work of a large table.

ghost use Rattle.std.specs.Prelude.{◌≡◌, ◌<◌, ◌≤◌, length, IfOk};
ghost use Rattle.query_engine.specs.Asked.{TailsFit};

use index_model::{Entry, Kind, List, Run, Steps, Text};
use query_engine::Table;
use std::alloc::{AllocError, Global};
use std::marker::Brand;
use std::sync::ledger::{Blank, Ledger};
use std::test::Fail;
use std::thread::Threads;

// A function of this name, whose last byte is its simple name.
fn function(name: &'static [u8]) -> Entry<'static>
    ensures { result.tail ≤ length result.name }
{
    Entry {
        unit: 0,
        offset: 0,
        tag: 0x2e,
        kind: Kind::Function,
        local: false,
        linkage: false,
        name: Text::lent(name),
        tail: name.len().min(1) as u32,
    }
}

const NAMES: [&[u8]; 3] = [b"ns::f", b"main", b"_f"];

// So many entries, whose names are those in turn.
fn run(alloc: Global, count: usize) -> Result<Run<'static>, AllocError>
    ensures { IfOk result (λ run. TailsFit run × (length run ≡ count)) }
{
    let mut entries = Vec::with_capacity(alloc, count)?;
    for step in 0..count {
        entries.push(function(NAMES[step % 3]))?;
    }
    Ok(List::of(entries))
}

// How many entries have the name, and how many the simple name.
fn found<L: Ledger>(table: &Table<'_>, name: &[u8], simple: &[u8], blank: Blank) -> (usize, usize)
    requires name { blank.name ≡ L.name }
    requires parts { blank.parts ≡ L.parts }
    requires some { 0 < blank.parts }
{
    let mut steps: Steps<L> = Steps::new(blank);
    let named = table.by_name(name, &mut steps).len();
    (named, table.by_simple(simple, &mut steps).len())
}

// A table of sixteen runs, in which each name stands 20,000 times.
fn merged<R: Threads + Sync>(rt: &R, alloc: Global) -> Result<Table<'static>, Fail> {
    let mut runs = Vec::new(alloc);
    for _step in 0..16u32 {
        runs.push(run(alloc, 3_750)?)?;
    }
    Table::merge(rt, alloc, runs).map_err(|_| "memory".into())
}

// How many entries and how many names the table has.
fn sizes(table: &Table<'_>) -> (usize, u64) {
    (table.entries().len(), table.distinct())
}

#[test]
fn many_entries_of_three_names(rt: HostRuntime) -> Result<(), Fail> {
    let table = merged(&rt, rt.alloc())?;
    let counts = found::<Brand>(&table, b"main", b"f", Blank::new(1));
    assert_eq!(rt; (sizes(&table), counts), ((60_000, 3), (20_000, 40_000)));
    Ok(())
}
