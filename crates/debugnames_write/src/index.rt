//! The bytes of the index (DWARF 5, section 6.1.1.4).

ghost use Rattle.std.specs.Prelude.{◌≡◌, ◌<◌, ◌≤◌, ◌+◌, ◌++◌, true, false, length, flat_map, All, OnOk};
ghost use Rattle.index_model.specs.Layout.{u32_bytes};
ghost use Rattle.index_model.specs.NameIndex.{abbreviation_table, unit_offsets};
ghost use Rattle.debugnames_write.specs.Answers.{Answers};
ghost use Rattle.debugnames_write.specs.Laid.{laid_out, front_size, head_with, all_buckets, hash_bytes, string_bytes, pool_bytes};
ghost use Rattle.debugnames_write.specs.Names.{HaveBuckets, HaveRows};
ghost use Rattle.debugnames_write.specs.Units.{ArePlacesOf};

use crate::abbreviations::Abbreviations;
use crate::buckets::buckets_of;
use crate::limits::{MAX_INDEX, grown};
use crate::name::Name;
use crate::numbers::{push_u16, push_u32, push_u32s};
use crate::pool::pool_places;
use crate::pool_halves::push_pool_by_halves;
use crate::units::{UnitPlaces, push_unit_offsets};
use index_model::{Unit, WriteStop};
use std::alloc::{AllocError, Global};
use std::thread::Threads;

const VERSION: u16 = 5;

// The length, the version, the padding and the counts.
const HEADER_SIZE: u64 = 36;

// The length doesn't count its own bytes.
const LENGTH_SIZE: u64 = 4;

// An offset of a unit.
const UNIT_SIZE: u64 = 4;

// A bucket, a hash, and the offsets of a name's string and of its entries.
const NAME_SIZE: u64 = 16;

/// The bytes of the index over these names in their order. The names are halved so often for threads.
pub(crate) fn index_bytes<R: Threads + Sync>(
    rt: &R,
    alloc: Global,
    halvings: u32,
    units: &[Unit],
    places: &UnitPlaces,
    abbreviations: &Abbreviations,
    names: &[Name<'_>],
) -> Result<Vec<u8>, WriteStop>
    requires units { length units.now ≤ 16777215 }
    requires starts { All (λ u. u.start < 4294967296) units.now }
    requires places { ArePlacesOf units.now places.now }
    requires few { length names.now < 4294967296 }
    requires buckets { HaveBuckets names.now }
    requires rows { All (λ n. HaveRows abbreviations.now n.items.now) names.now }
    ensures { Answers result (λ v. (v.items ≡ laid_out units.now abbreviations.now names.now) × (length v.items ≤ 4294967283)) (4294967283 < length (laid_out units.now abbreviations.now names.now)) }
{
    let table_size = abbreviations.size()?;
    let pool = pool_places(rt, alloc, halvings, abbreviations, names)?;
    let count = names.len() as u32;
    let size = index_size(places, count, table_size, pool.size)?;
    let mut out = Vec::with_capacity(alloc, size as usize)?;
    let length = (size - LENGTH_SIZE) as u32;
    push_front(&mut out, length, units, places, count, table_size as u32)?;
    push_tables(
        rt,
        alloc,
        halvings,
        &mut out,
        abbreviations,
        names,
        &pool.starts,
    )?;
    Ok(out)
}

// How many bytes the index has, with so many names and with tables of these sizes.
fn index_size(
    places: &UnitPlaces,
    names: u32,
    table_size: u64,
    pool_size: u64,
) -> Result<u64, WriteStop>
    ensures { Answers result (λ size. (size ≡ front_size places.now names + table_size + pool_size) × (size ≤ 4294967283)) (4294967283 < front_size places.now names + table_size + pool_size) }
{
    let listed = u64::from(places.compile_units) + u64::from(places.type_units);
    let front = HEADER_SIZE + listed * UNIT_SIZE + u64::from(names) * NAME_SIZE;
    let behind_table = grown(front, table_size, MAX_INDEX)?;
    grown(behind_table, pool_size, MAX_INDEX)
}

// Appends what stands before the names: the length, the counts, and where the units begin.
fn push_front(
    out: &mut Vec<u8>,
    length: u32,
    units: &[Unit],
    places: &UnitPlaces,
    names: u32,
    table_size: u32,
) -> Result<(), AllocError>
    requires { All (λ u. u.start < 4294967296) units.now }
    ensures { OnOk result (out.new.items ≡ (((out.old.items ++ u32_bytes length) ++ head_with places.now names table_size) ++ unit_offsets false units.now) ++ unit_offsets true units.now) }
{
    push_u32(out, length)?;
    push_counts(out, places, names, table_size)?;
    push_unit_offsets(out, units, false)?;
    push_unit_offsets(out, units, true)?;
    Ok(())
}

// Appends the tables of the names, the abbreviations and the entries.
fn push_tables<R: Threads + Sync>(
    rt: &R,
    alloc: Global,
    halvings: u32,
    out: &mut Vec<u8>,
    abbreviations: &Abbreviations,
    names: &[Name<'_>],
    starts: &[u32],
) -> Result<(), AllocError>
    requires few { length names.now < 4294967296 }
    requires buckets { HaveBuckets names.now }
    requires rows { All (λ n. HaveRows abbreviations.now n.items.now) names.now }
    ensures { OnOk result (out.new.items ≡ (((((out.old.items ++ flat_map u32_bytes (all_buckets names.now)) ++ hash_bytes names.now) ++ string_bytes names.now) ++ flat_map u32_bytes starts.now) ++ abbreviation_table abbreviations.now) ++ pool_bytes abbreviations.now names.now) }
{
    push_names(alloc, out, names, starts)?;
    abbreviations.push(out)?;
    push_pool_by_halves(rt, alloc, halvings, out, abbreviations, names)?;
    Ok(())
}

// Appends the tables of the names: the buckets, the hashes, and where their strings and their entries stand.
fn push_names(
    alloc: Global,
    out: &mut Vec<u8>,
    names: &[Name<'_>],
    starts: &[u32],
) -> Result<(), AllocError>
    requires few { length names.now < 4294967296 }
    requires buckets { HaveBuckets names.now }
    ensures { OnOk result (out.new.items ≡ (((out.old.items ++ flat_map u32_bytes (all_buckets names.now)) ++ hash_bytes names.now) ++ string_bytes names.now) ++ flat_map u32_bytes starts.now) }
{
    push_buckets(alloc, out, names)?;
    push_hashes(out, names)?;
    push_strings(out, names)?;
    push_u32s(out, starts)?;
    Ok(())
}

// Appends the buckets.
fn push_buckets(alloc: Global, out: &mut Vec<u8>, names: &[Name<'_>]) -> Result<(), AllocError>
    requires few { length names.now < 4294967296 }
    requires buckets { HaveBuckets names.now }
    ensures { OnOk result (out.new.items ≡ out.old.items ++ flat_map u32_bytes (all_buckets names.now)) }
{
    let buckets = buckets_of(alloc, names)?;
    push_u32s(out, &buckets)?;
    Ok(())
}

// Appends version, padding and counts: of units, which aren't foreign, of buckets, of names, and of the bytes of the
// abbreviations and of the augmentation.
fn push_counts(
    out: &mut Vec<u8>,
    places: &UnitPlaces,
    names: u32,
    table_size: u32,
) -> Result<(), AllocError>
    ensures { OnOk result (out.new.items ≡ out.old.items ++ head_with places.now names table_size) }
{
    push_u16(out, VERSION)?;
    push_u16(out, 0)?;
    let compile_units = places.compile_units;
    let type_units = places.type_units;
    push_u32s(
        out,
        &[compile_units, type_units, 0, names, names, table_size, 0],
    )?;
    Ok(())
}

// Appends the hash of each name.
fn push_hashes(out: &mut Vec<u8>, names: &[Name<'_>]) -> Result<(), AllocError>
    ensures { OnOk result (out.new.items ≡ out.old.items ++ hash_bytes names.now) }
{
    for name in names {
        push_u32(out, name.hash)?;
    }
    Ok(())
}

// Appends where the string of each name stands.
fn push_strings(out: &mut Vec<u8>, names: &[Name<'_>]) -> Result<(), AllocError>
    ensures { OnOk result (out.new.items ≡ out.old.items ++ string_bytes names.now) }
{
    for name in names {
        push_u32(out, name.string)?;
    }
    Ok(())
}
