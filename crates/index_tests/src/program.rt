//! What the program `PLAIN` has: a unit, and in it the function `main`.

ghost use Rattle.std.specs.Prelude.{◌≡◌, ◌≤◌, IfOk, length};
ghost use Rattle.query_engine.specs.Asked.{TailsFit};

use index_model::{Entry, Kind, List, Part, Run, Text, Unit, UnitSort};
use query_engine::Table;
use std::alloc::{AllocError, Global};
use std::test::Fail;
use std::thread::Threads;

pub(crate) const UNIT: Unit = Unit {
    start: 0,
    part: Part::Info,
    length: 0x31,
    version: 5,
    wide: false,
    sort: UnitSort::Compile,
    abbrev: 0,
    body: 12,
    signature: 0,
    type_offset: 0,
};

fn main_entry() -> Entry<'static>
    ensures { result.tail ≤ length result.name }
{
    Entry {
        unit: 0,
        offset: 0x1e,
        tag: 0x2e,
        kind: Kind::Function,
        local: false,
        linkage: false,
        name: Text::lent(b"main"),
        tail: 4,
    }
}

fn run(alloc: Global) -> Result<Run<'static>, AllocError>
    ensures { IfOk result (λ run. TailsFit run × (length run ≡ 1)) }
{
    let mut entries = Vec::new(alloc);
    entries.push(main_entry())?;
    Ok(List::of(entries))
}

pub(crate) fn table<R: Threads + Sync>(rt: &R, alloc: Global) -> Result<Table<'static>, Fail> {
    let mut runs = Vec::new(alloc);
    runs.push(run(alloc)?)?;
    Table::merge(rt, alloc, runs).map_err(|_| "memory".into())
}
