//! gdbindex_write and debugnames_write.

ghost use Rattle.std.specs.Prelude.{◌≡◌, ◌<◌, ◌⊎◌, All, IsTrue, length, option_map};
ghost use Rattle.index_model.specs.Seen.{main_seen};
ghost use Rattle.gdbindex_write.specs.Writable.{HasUnit, IsMainOf};
ghost use Rattle.debugnames_write.specs.Conditions.{IsInside};

use crate::program::{UNIT, table};
use address_map::AddressMap;
use debugnames_write::write as write_names;
use gdbindex_write::write as write_gdb;
use index_model::{Entry, MainName, Range, Unit, UnitRange};
use ix_base::NoMemory;
use query_engine::Table;
use std::alloc::Global;
use std::test::Fail;
use std::thread::Threads;
use test_files::indexes::{GDB8, GDB9, NAMES};

// Whether the only piece is one of the only unit.
fn is_piece(pieces: &[UnitRange]) -> bool
    ensures { IsTrue result → All (λ p. p.unit < 1) pieces.now }
{
    match pieces {
        [piece] => piece.unit == 0,
        _ => false,
    }
}

// Whether the only entry lies in the only unit, and has the name of main.
fn is_main(units: &[Unit; 1], entries: &[Entry<'_>], main: Option<MainName<'_>>) -> bool
    ensures gdb { IsTrue result → All (HasUnit units.now) entries.now }
    ensures names { IsTrue result → All (IsInside units.now) entries.now }
    ensures main { IsTrue result → IsMainOf entries.now (option_map main_seen main.entry) }
{
    let [unit] = units;
    match (entries, main) {
        ([entry], Some(main)) => {
            entry.unit == 0
                && unit.start <= entry.offset
                && entry.offset - unit.start < unit.length
                && !entry.linkage
                && entry.name.bytes() == main.name
        }
        _ => false,
    }
}

const MAIN: MainName<'static> = MainName {
    language: 12,
    name: b"main",
};

// Whether a version of the index of the program has these bytes.
fn is_gdb(alloc: Global, map: &AddressMap, table: &Table<'_>, version: u8, bytes: &[u8]) -> bool
    requires { (version ≡ 8) ⊎ (version ≡ 9) }
{
    let units = [UNIT];
    if !is_piece(map.pieces()) || !is_main(&units, table.entries(), Some(MAIN)) {
        return false;
    }
    match write_gdb(alloc, &units, map, Some(MAIN), table, version) {
        Ok(index) => index.as_slice() == bytes,
        Err(_) => false,
    }
}

// Whether each version has its bytes.
fn are_gdb(alloc: Global, table: &Table<'_>) -> Result<(bool, bool), NoMemory> {
    let range = Range {
        low: 0x1000,
        end: 0x1020,
    };
    let map = AddressMap::build(alloc, &[UnitRange { unit: 0, range }])?;
    let eight = is_gdb(alloc, &map, table, 8, &GDB8);
    Ok((eight, is_gdb(alloc, &map, table, 9, &GDB9)))
}

fn is_names<R: Threads + Sync>(rt: &R, alloc: Global, table: &Table<'_>) -> bool {
    let units = [UNIT];
    if !is_main(&units, table.entries(), Some(MAIN)) {
        return false;
    }
    match write_names(rt, alloc, &units, 0, table) {
        Ok(index) => {
            let names = index.names.as_slice() == NAMES.as_slice();
            names && index.strings.as_slice() == b"main\0".as_slice()
        }
        Err(_) => false,
    }
}

#[test]
fn the_indexes_of_a_program(rt: HostRuntime) -> Result<(), Fail> {
    let table = table(&rt, rt.alloc())?;
    let gdb = are_gdb(rt.alloc(), &table)?;
    let names = is_names(&rt, rt.alloc(), &table);
    assert_eq!(rt; (gdb, names), ((true, true), true));
    Ok(())
}
