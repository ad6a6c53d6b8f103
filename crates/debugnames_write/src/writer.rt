//! The call that writes an index.

ghost use Rattle.std.specs.Prelude.{◌≡◌, ◌<◌, ◌≤◌, length, flat_map, All, IfOk, IfErr, OnOk};
ghost use Rattle.std.specs.Thread.{IsSync};
ghost use Rattle.index_model.specs.declared.entry.Entry.{Entry};
ghost use Rattle.index_model.specs.NameIndex.{name_index_bytes, name_index_strings};
ghost use Rattle.index_model.specs.Layout.{ended};
ghost use Rattle.index_model.specs.WriteStops.{too_large};
ghost use Rattle.debugnames_write.specs.Answers.{Answers};
ghost use Rattle.debugnames_write.specs.Conditions.{AreIndexable, Fits};
ghost use Rattle.debugnames_write.specs.Groups.{group_names};
ghost use Rattle.debugnames_write.specs.Laid.{laid_out};
ghost use Rattle.debugnames_write.specs.Made.{AreMadeOf};
ghost use Rattle.debugnames_write.specs.Names.{HaveBuckets, HaveRows};
ghost use Rattle.debugnames_write.specs.Units.{ArePlacesOf};

use crate::abbreviations::Abbreviations;
use crate::groups::{NameEntries, groups_of};
use crate::index::index_bytes;
use crate::listed::{ListedItems, sorted_items};
use crate::name::{Name, sorted_names};
use crate::strings::strings_of;
use crate::threads::both;
use crate::units::UnitPlaces;
use index_model::{List, Unit, WriteStop};
use query_engine::Table;
use std::alloc::{AllocError, Global};
use std::thread::Threads;

/// The bytes of a `.debug_names`, and the strings that are appended to `.debug_str`.
#[derive(Drop)]
pub struct NameBytes {
    pub names: List<u8>,
    pub strings: List<u8>,
}

/// The index of these units and of the entries of this table, in a program whose `.debug_str` has so many bytes before it gets
/// the index's strings.
///
/// The units follow one another from joint offset 0, those of `.debug_info` first. There are at most 16,777,215 of them, and
/// they end below 4,294,967,296. Each entry lies inside one of them. n entries cost n log n comparisons of names. As many threads
/// share the work as shared that of the table, and the bytes are the same for any number of them.
///
/// # Errors
///
/// `TooLarge` only where the index or `.debug_str` with its strings would be too large, and never bytes there. `Memory` where
/// memory was refused.
pub fn write<R: Threads + Sync>(
    rt: &R,
    alloc: Global,
    units: &[Unit],
    old_strings: u64,
    table: &Table<'_>,
) -> Result<NameBytes, WriteStop>
    requires { AreIndexable units.now table.now }
    ensures names { IfOk result (λ bytes. bytes.names ≡ name_index_bytes units.now old_strings table.now) }
    ensures strings { IfOk result (λ bytes. bytes.strings ≡ name_index_strings units.now table.now) }
    ensures fits { OnOk result (Fits units.now old_strings table.now) }
    ensures too_large { IfErr result (λ stop. stop ≡ too_large → ¬ Fits units.now old_strings table.now) }
{
    let places = UnitPlaces::of(alloc, units)?;
    let ListedItems { names, items } = sorted_items(rt, alloc, units, &places, table)?;
    let abbreviations = Abbreviations::of(alloc, &items)?;
    let groups = groups_of(alloc, &names, &items)?;
    let halvings = table.halvings();
    name_bytes(
        rt,
        alloc,
        halvings,
        units,
        &places,
        &abbreviations,
        &groups,
        old_strings,
    )
}

// The bytes for the entries of these names. Work over them is halved so often for threads.
fn name_bytes<R: Threads + Sync>(
    rt: &R,
    alloc: Global,
    halvings: u32,
    units: &[Unit],
    places: &UnitPlaces,
    abbreviations: &Abbreviations,
    groups: &[NameEntries<'_>],
    old_strings: u64,
) -> Result<NameBytes, WriteStop>
    requires units { length units.now ≤ 16777215 }
    requires starts { All (λ u. u.start < 4294967296) units.now }
    requires places { ArePlacesOf units.now places.now }
    requires made { (entries : List Entry) × AreMadeOf units.now abbreviations.now groups.now entries }
    ensures names { (entries : List Entry) → AreMadeOf units.now abbreviations.now groups.now entries → IfOk result (λ bytes. bytes.names ≡ name_index_bytes units.now old_strings entries) }
    ensures strings { (entries : List Entry) → AreMadeOf units.now abbreviations.now groups.now entries → IfOk result (λ bytes. bytes.strings ≡ name_index_strings units.now entries) }
    ensures fits { (entries : List Entry) → AreMadeOf units.now abbreviations.now groups.now entries → OnOk result (Fits units.now old_strings entries) }
    ensures too_large { (entries : List Entry) → AreMadeOf units.now abbreviations.now groups.now entries → IfErr result (λ stop. stop ≡ too_large → ¬ Fits units.now old_strings entries) }
{
    let named = sorted_names(rt, alloc, halvings, groups, old_strings)?;
    let sorted: &[Name<'_>] = &named.names;
    let size = (named.strings_end - old_strings) as usize;
    let strings = || -> Result<Vec<u8>, AllocError>
        ensures { IfOk result (λ v. v.items ≡ flat_map ended (group_names groups.entry.now)) }
    { strings_of(alloc, groups, size) };
    let names = || -> Result<Vec<u8>, WriteStop>
        requires { IsSync R.row × (length units.now ≤ 16777215) × All (λ u. u.start < 4294967296) units.now × ArePlacesOf units.now places.now × (length sorted.now < 4294967296) × HaveBuckets sorted.now × All (λ n. HaveRows abbreviations.now n.items.now) sorted.now }
        ensures { Answers result (λ v. (v.items ≡ laid_out units.entry.now abbreviations.entry.now sorted.entry.now) × (length v.items ≤ 4294967283)) (4294967283 < length (laid_out units.entry.now abbreviations.entry.now sorted.entry.now)) }
    { index_bytes(rt, alloc, halvings, units, places, abbreviations, sorted) };
    let (strings, names) = both(rt, halvings, strings, names);
    Ok(NameBytes {
        names: List::of(names?),
        strings: List::of(strings?),
    })
}
