//! debugnames_write: units of each sort. The bytes were written by hand from DWARF 5, section 6.1.1.

ghost use Rattle.std.specs.Prelude.{◌≡◌, ◌<◌, ◌≤◌, ◌^◌, length, true, All, IfOk};
ghost use Rattle.query_engine.specs.Asked.{TailsFit};
ghost use Rattle.debugnames_write.specs.Conditions.{AreUnits, IsInside};

use debugnames_write::write;
use index_model::{Entry, Kind, List, Part, Text, Unit, UnitSort};
use ix_base::NoMemory;
use query_engine::Table;
use std::alloc::{AllocError, Global};
use std::test::Fail;
use std::thread::Threads;

fn unit(start: u64, part: Part, sort: UnitSort) -> Unit
    ensures start { result.start ≡ start }
    ensures length { result.length ≡ 256 }
    ensures part { result.part ≡ part }
{
    Unit {
        start,
        part,
        length: 256,
        version: 5,
        wide: false,
        sort,
        abbrev: 0,
        body: 12,
        signature: 0,
        type_offset: 0,
    }
}

// A compile unit, a type unit and a partial unit of `.debug_info`, and a type unit of `.debug_types`.
fn four_units() -> [Unit; 4]
    ensures { AreUnits result }
{
    [
        unit(0, Part::Info, UnitSort::Compile),
        unit(256, Part::Info, UnitSort::TypeUnit),
        unit(512, Part::Info, UnitSort::Partial),
        unit(768, Part::Types, UnitSort::TypeUnit),
    ]
}

fn entry<'f>(unit: u32, offset: u64, tag: u16, name: &'f [u8], tail: u32) -> Entry<'f> {
    Entry {
        unit,
        offset,
        tag,
        kind: Kind::Function,
        local: false,
        linkage: tail == 0,
        name: Text::lent(name),
        tail,
    }
}

// Whether each entry lies inside its unit.
fn all_inside(units: &[Unit], entries: &[Entry<'_>]) -> bool
    ensures { result ≡ true → All (IsInside units.now) entries.now }
{
    for entry in entries {
        if !is_inside(units, entry) {
            return false;
        }
    }
    true
}

fn is_inside(units: &[Unit], entry: &Entry<'_>) -> bool
    ensures { result ≡ true → IsInside units.now entry.now }
{
    let number = entry.unit as usize;
    if number >= units.len() {
        return false;
    }
    let unit = units[number];
    unit.start <= entry.offset && entry.offset - unit.start < unit.length
}

// Whether no tail is above the length of its name.
fn tails_fit(entries: &[Entry<'_>]) -> bool
    ensures { result ≡ true → TailsFit entries.now }
{
    for entry in entries {
        if !tail_fits(entry) {
            return false;
        }
    }
    true
}

fn tail_fits(entry: &Entry<'_>) -> bool
    ensures { result ≡ true → entry.now.tail ≤ length entry.now.name }
{
    entry.tail as usize <= entry.name.bytes().len()
}

fn table_of<'f, R: Threads + Sync>(
    rt: &R,
    alloc: Global,
    entries: Vec<Entry<'f>>,
) -> Result<Table<'f>, NoMemory>
    requires few { length entries.items < 2 ^ 32 }
    requires tails { TailsFit entries.items }
    ensures { IfOk result (λ table. table ≡ entries.entry.items) }
{
    let mut runs = Vec::new(alloc);
    runs.push(List::of(entries))?;
    Table::merge(rt, alloc, runs)
}

// The strings begin at 1,000: `Value`, `_Zv` and `value`. Two names that differ in their case alone have one hash and stand in byte
// order. Entries of one name stand in section order, those of `.debug_types` don't stand in the index, and compile and type units
// have abbreviations of their own.
const NAMES: &[u8; 154] =
    b"\x96\0\0\0\x05\0\0\0\x02\0\0\0\x01\0\0\0\0\0\0\0\x03\0\0\0\x03\0\0\0\x19\0\0\0\0\0\0\0\
      \0\0\0\0\0\x02\0\0\0\x01\0\0\0\0\0\0\x01\0\0\0\0\0\0\0\
      4W\x88\x0bBW\x8d\x10BW\x8d\x10\xee\x03\0\0\xe8\x03\0\0\xf2\x03\0\0\0\0\0\0\x07\0\0\0\x0e\0\0\0\
      \x01\x13\x02\x0f\x03\x13\0\0\x02.\x01\x0f\x03\x13\0\0\x034\x01\x0f\x03\x13\0\0\0\
      \x02\0P\0\0\0\0\x03\0@\0\0\0\0\x02\0H\0\0\0\x01\0 \0\0\0\x02\x01\x10\0\0\0\0";

fn entries(alloc: Global) -> Result<Vec<Entry<'static>>, AllocError> {
    let entries = vec![in alloc;
        entry(0, 0x40, 0x34, b"ns::Value", 5),
        entry(0, 0x48, 0x2E, b"ns::value", 5),
        entry(0, 0x50, 0x2E, b"_Zv", 0),
        entry(1, 0x120, 0x13, b"value", 5),
        entry(2, 0x210, 0x2E, b"value", 5),
        entry(3, 0x310, 0x13, b"hidden", 6),
    ]?;
    Ok(entries)
}

// Whether the index of a table of these units has the bytes above.
fn is_written<R: Threads + Sync>(rt: &R, alloc: Global, table: &Table<'_>) -> bool {
    let units = four_units();
    if !all_inside(&units, table.entries()) {
        return false;
    }
    match write(rt, alloc, &units, 1000, table) {
        Ok(index) => {
            let names = index.names.as_slice() == NAMES.as_slice();
            names && index.strings.as_slice() == b"Value\0_Zv\0value\0".as_slice()
        }
        Err(_) => false,
    }
}

#[test]
fn names_in_units_of_each_sort(rt: HostRuntime) -> Result<(), Fail> {
    let alloc = rt.alloc();
    let entries = entries(alloc)?;
    if entries.len() >= 100 || !tails_fit(&entries) {
        return Err("these entries can't be sorted".into());
    }
    let table = table_of(&rt, alloc, entries).map_err(|_| "memory")?;
    assert!(rt; is_written(&rt, alloc, &table));
    Ok(())
}
