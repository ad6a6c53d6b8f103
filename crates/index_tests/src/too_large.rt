//! gdbindex_write and debugnames_write: names of more bytes than either format can hold. No clause says that this isn't answered as
//! want of memory.

ghost use Rattle.std.specs.Prelude.{◌<◌, ◌≤◌, All, IfOk, IsTrue, length};
ghost use Rattle.query_engine.specs.Asked.{TailsFit};
ghost use Rattle.gdbindex_write.specs.Writable.{HasUnit};
ghost use Rattle.debugnames_write.specs.Conditions.{IsInside};

use crate::program::{UNIT, table};
use address_map::AddressMap;
use debugnames_write::write as write_names;
use gdbindex_write::write as write_gdb;
use index_model::{Entry, Kind, List, Run, Text, TooLarge, Unit, UnitRange};
use ix_base::OrMemory;
use query_engine::Table;
use std::alloc::{AllocError, Global};
use std::test::Fail;
use std::thread::Threads;

// Each of the 260 names is the end of one text of 16 MiB, so that they take little memory.
fn suffixes<'f>(alloc: Global, text: &'f [u8]) -> Result<Run<'f>, AllocError>
    ensures { IfOk result (λ run. TailsFit run × (length run ≤ 260)) }
{
    let mut entries = Vec::new(alloc);
    for i in 0..260usize {
        if let Some(name) = text.get(2 * i..) {
            entries.push(function(name))?;
        }
    }
    Ok(List::of(entries))
}

fn function<'f>(name: &'f [u8]) -> Entry<'f>
    ensures { result.tail ≤ length result.name }
{
    Entry {
        unit: 0,
        offset: 0x1e,
        tag: 0x2e,
        kind: Kind::Function,
        local: false,
        linkage: false,
        name: Text::lent(name),
        tail: 0,
    }
}

// Whether each entry lies in the only unit.
fn are_inside(units: &[Unit; 1], entries: &[Entry<'_>]) -> bool
    ensures gdb { IsTrue result → All (HasUnit units.now) entries.now }
    ensures names { IsTrue result → All (IsInside units.now) entries.now }
{
    for entry in entries {
        if !is_inside(units, entry) {
            return false;
        }
    }
    true
}

fn is_inside(units: &[Unit; 1], entry: &Entry<'_>) -> bool
    ensures gdb { IsTrue result → HasUnit units.now entry.now }
    ensures names { IsTrue result → IsInside units.now entry.now }
{
    let [unit] = units;
    entry.unit == 0 && unit.start <= entry.offset && entry.offset - unit.start < unit.length
}

fn table_of<'f, R: Threads + Sync>(
    rt: &R,
    alloc: Global,
    text: &'f [u8],
) -> Result<Table<'f>, Fail> {
    let mut runs = Vec::new(alloc);
    runs.push(suffixes(alloc, text)?)?;
    Table::merge(rt, alloc, runs).map_err(|_| "memory".into())
}

// Whether there are no pieces, so that each is one of the only unit.
fn are_none(pieces: &[UnitRange]) -> bool
    ensures { IsTrue result → All (λ p. p.unit < 1) pieces.now }
{
    pieces.is_empty()
}

// Whether a `.gdb_index` of these entries in the only unit is too large.
fn is_too_large(alloc: Global, table: &Table<'_>) -> Result<bool, Fail> {
    let units = [UNIT];
    let map = AddressMap::build(alloc, &[]).map_err(|_| "memory")?;
    if !are_inside(&units, table.entries()) || !are_none(map.pieces()) {
        return Ok(false);
    }
    let written = write_gdb(alloc, &units, &map, None, table, 8);
    Ok(matches!(written, Err(OrMemory::Cause(TooLarge))))
}

// All numbers of 16 bits, again and again.
fn text(alloc: Global) -> Result<Vec<u8>, AllocError> {
    let mut text = Vec::with_capacity(alloc, 16_777_216)?;
    for i in 0..8_388_608u32 {
        let number = i % 65_536;
        text.push((number / 256) as u8)?;
        text.push((number % 256) as u8)?;
    }
    Ok(text)
}

#[test]
fn names_of_too_many_bytes(rt: HostRuntime) -> Result<(), Fail> {
    let text = text(rt.alloc())?;
    let table = table_of(&rt, rt.alloc(), &text)?;
    let too_large = is_too_large(rt.alloc(), &table)?;
    assert!(rt; too_large);
    Ok(())
}

// How the names of the table are written behind so many bytes of strings: whether they are, and whether they are too large.
fn written_behind<R: Threads + Sync>(
    rt: &R,
    alloc: Global,
    table: &Table<'_>,
    bytes: u64,
) -> Option<(bool, bool)> {
    let units = [UNIT];
    if !are_inside(&units, table.entries()) {
        return None;
    }
    match write_names(rt, alloc, &units, bytes, table) {
        Ok(_) => Some((true, false)),
        Err(OrMemory::Cause(TooLarge)) => Some((false, true)),
        Err(_) => Some((false, false)),
    }
}

// `main` and its zero are added behind the strings that are there, of which `.debug_str` holds 4,294,967,295 bytes at most.
#[test]
fn strings_beyond_the_limit(rt: HostRuntime) -> Result<(), Fail> {
    let table = table(&rt, rt.alloc())?;
    let fits = written_behind(&rt, rt.alloc(), &table, 4_294_967_290);
    let beyond = written_behind(&rt, rt.alloc(), &table, 4_294_967_291);
    assert_eq!(rt; (fits, beyond), (Some((true, false)), Some((false, true))));
    Ok(())
}
