//! The areas of the index in their order (GDB manual, "Index Section Format").

ghost use Rattle.std.specs.Prelude.{◌≡◌, ◌≤◌, ◌<◌, ◌+◌, ◌^◌, ◌++◌, length, flat_map, option_map, All, OnOk};
ghost use Rattle.index_model.specs.GdbIndex.{cu_list, types_list, vector_bytes};
ghost use Rattle.index_model.specs.Layout.{ended};
ghost use Rattle.index_model.specs.Seen.{main_seen};
ghost use Rattle.gdbindex_write.specs.Addresses.{piece_bytes};
ghost use Rattle.gdbindex_write.specs.Header.{header_bytes};
ghost use Rattle.gdbindex_write.specs.Places.{numbered_bytes, places_of, shortcut_of};
ghost use Rattle.gdbindex_write.specs.Pools.{vectors_seen};
ghost use Rattle.gdbindex_write.specs.Sizes.{names_size, total, vectors_size};
ghost use Rattle.gdbindex_write.specs.Slots.{numbers_in_slots};
ghost use Rattle.gdbindex_write.specs.Symbols.{names_of};
ghost use Rattle.gdbindex_write.specs.Writable.{unit_bytes};

use crate::addresses::put_address_area;
use crate::header::put_header;
use crate::names::put_names;
use crate::places::places;
use crate::sizes::Sizes;
use crate::slots::numbers_in_slots;
use crate::symbols::Symbol;
use crate::table::{put_shortcut, put_symbol_table};
use crate::units::{put_cu_list, put_types_list};
use crate::vectors::{Vectors, put_vectors};
use index_model::{MainName, Unit, UnitRange};
use ix_base::NoMemory;
use std::alloc::Global;

/// Appends the header, and the areas of the units and of their addresses.
pub(crate) fn put_units(
    out: &mut Vec<u8>,
    version: u8,
    sizes: &Sizes,
    units: &[Unit],
    numbers: &[u32],
    pieces: &[UnitRange],
) -> Result<(), NoMemory>
    requires sizes { total version sizes.now ≤ 4294967295 }
    requires units { unit_bytes units.now < 2 ^ 32 }
    requires pieces { All (λ p. p.unit < length numbers.now) pieces.now }
    ensures { OnOk result (out.new.items ≡ (((out.old.items ++ header_bytes version sizes.now) ++ cu_list units.now) ++ types_list units.now) ++ flat_map (piece_bytes numbers.now) pieces.now) }
{
    put_header(out, version, sizes)?;
    put_cu_list(out, units)?;
    put_types_list(out, units)?;
    put_address_area(out, numbers, pieces)?;
    Ok(())
}

/// Appends the areas of the names: the symbol table, the shortcut to main and the constant pool, whose vectors have so many
/// bytes.
pub(crate) fn put_symbols(
    alloc: Global,
    out: &mut Vec<u8>,
    version: u8,
    main: Option<MainName<'_>>,
    symbols: &[Symbol<'_>],
    vectors: &Vectors<'_>,
    vectors_bytes: u64,
) -> Result<(), NoMemory>
    requires size { vectors_bytes ≡ vectors_size (vectors_seen vectors.now.distinct.items) }
    requires small { vectors_bytes + names_size (names_of symbols.now) ≤ 4294967295 }
    requires each { length vectors.now.numbers.items ≡ length symbols.now }
    requires numbers { All (λ n. n < length vectors.now.distinct.items) vectors.now.numbers.items }
    ensures { OnOk result (out.new.items ≡ (((out.old.items
        ++ flat_map (numbered_bytes (places_of symbols.now vectors.now.distinct.items vectors.now.numbers.items)) (numbers_in_slots (names_of symbols.now)))
        ++ shortcut_of version symbols.now (places_of symbols.now vectors.now.distinct.items vectors.now.numbers.items) (option_map main_seen main.entry))
        ++ flat_map vector_bytes (vectors_seen vectors.now.distinct.items)) ++ flat_map ended (names_of symbols.now)) }
{
    let places = places(alloc, symbols, vectors, vectors_bytes)?;
    let slots = numbers_in_slots(alloc, symbols)?;
    put_symbol_table(out, &slots, &places)?;
    put_shortcut(out, version, main, symbols, &places)?;
    put_vectors(out, &vectors.distinct)?;
    put_names(out, symbols)?;
    Ok(())
}
