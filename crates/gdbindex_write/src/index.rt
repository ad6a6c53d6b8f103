//! The index as a whole.

ghost use Rattle.std.specs.Prelude.{◌≡◌, ◌≤◌, ◌<◌, ◌^◌, List, length, option_map, All, IfOk, Err};
ghost use Rattle.index_model.specs.declared.entry.Entry.{Entry};
ghost use Rattle.index_model.specs.GdbIndex.{gdb_index_bytes};
ghost use Rattle.index_model.specs.Seen.{main_seen};
ghost use Rattle.index_model.specs.WriteStops.{too_large};
ghost use Rattle.gdbindex_write.specs.Prepared.{IsPrepared};
ghost use Rattle.gdbindex_write.specs.Symbols.{AreWithin};
ghost use Rattle.gdbindex_write.specs.Writable.{IsWritable, unit_bytes};

use crate::areas::{put_symbols, put_units};
use crate::numbers::index_numbers;
use crate::sizes::Sizes;
use crate::symbols::Symbols;
use crate::vectors::Vectors;
use address_map::AddressMap;
use index_model::{MainName, TooLarge, Unit, UnitRange, WriteStop};
use ix_base::OrMemory;
use query_engine::Table;
use std::alloc::Global;

/// The bytes of the `.gdb_index` of a program with these units, addresses, main and entries, version 8 or 9.
///
/// The units stand in section order and follow one another. The map and the table name no others. Main has the name of an entry that isn't a linkage entry; only version 9 says it. The names come sorted from the table;
/// the work beside sorts of each name's own elements is linear.
///
/// # Errors
///
/// `TooLarge` exactly where the index has more than 4,294,967,295 bytes, and `Memory` where memory was refused.
pub fn write(
    alloc: Global,
    units: &[Unit],
    map: &AddressMap,
    main: Option<MainName<'_>>,
    table: &Table<'_>,
    version: u8,
) -> Result<Vec<u8>, WriteStop>
    requires { IsWritable units.now map.now (option_map main_seen main) table.now version }
    ensures bytes { IfOk result (λ v. v.items ≡ gdb_index_bytes units.now map.now (option_map main_seen main.entry) table.now version) }
    ensures fits { IfOk result (λ v. length v.items ≤ 4294967295) }
    ensures too_large { result ≡ Err too_large → 4294967295 < length (gdb_index_bytes units.now map.now (option_map main_seen main.entry) table.now version) }
{
    let numbers = index_numbers(alloc, units)?;
    let symbols = Symbols::of(alloc, &numbers, table)?;
    index_bytes(
        alloc,
        units,
        map.pieces(),
        main,
        version,
        &numbers,
        &symbols,
    )
}

// The bytes of the index, once its units have numbers and its names have vectors.
fn index_bytes(
    alloc: Global,
    units: &[Unit],
    pieces: &[UnitRange],
    main: Option<MainName<'_>>,
    version: u8,
    numbers: &[u32],
    symbols: &Symbols<'_>,
) -> Result<Vec<u8>, WriteStop>
    requires few { length units.now ≤ 16777215 }
    requires units { unit_bytes units.now < 2 ^ 32 }
    requires pieces { All (λ p. p.unit < length numbers.now) pieces.now }
    requires symbols { AreWithin (length symbols.now.elements.items) symbols.now.list.items }
    ensures bytes { (entries : List Entry) → IsPrepared units.now pieces.now (option_map main_seen main.entry) version numbers.now symbols.now entries → IfOk result (λ v. v.items ≡ gdb_index_bytes units.now pieces.now (option_map main_seen main.entry) entries version) }
    ensures fits { (entries : List Entry) → IsPrepared units.now pieces.now (option_map main_seen main.entry) version numbers.now symbols.now entries → IfOk result (λ v. length v.items ≤ 4294967295) }
    ensures too_large { (entries : List Entry) → IsPrepared units.now pieces.now (option_map main_seen main.entry) version numbers.now symbols.now entries → result ≡ Err too_large → 4294967295 < length (gdb_index_bytes units.now pieces.now (option_map main_seen main.entry) entries version) }
{
    let vectors = Vectors::of(alloc, symbols)?;
    let Some(sizes) = Sizes::of(units, pieces, &symbols.list, &vectors.distinct, version) else {
        return Err(OrMemory::Cause(TooLarge));
    };
    let mut out = Vec::with_capacity(alloc, sizes.total(version) as usize)?;
    put_units(&mut out, version, &sizes, units, numbers, pieces)?;
    put_symbols(
        alloc,
        &mut out,
        version,
        main,
        &symbols.list,
        &vectors,
        sizes.vectors,
    )?;
    Ok(out)
}
