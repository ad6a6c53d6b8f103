//! The entry pool of the index (DWARF 5, section 6.1.1.4.8).

ghost use Rattle.std.specs.Prelude.{◌≡◌, ◌<◌, ◌-◌, ◌^◌, ◌++◌, [], List, length, min, slice_index, All, IfOk, OnOk};
ghost use Rattle.index_model.specs.NameIndex.{Row as IndexRow};
ghost use Rattle.debugnames_write.specs.Answers.{Answers};
ghost use Rattle.debugnames_write.specs.Laid.{entries_bytes, group_sizes, pool_bytes};
ghost use Rattle.debugnames_write.specs.Names.{HaveRows, ArePlacesIn};
ghost use Rattle.debugnames_write.specs.declared.name.Name.{Name};

use crate::abbreviations::Abbreviations;
use crate::item::IndexEntry;
use crate::limits::{MAX_INDEX, grown};
use crate::name::Name;
use crate::numbers::{push_u32, push_uleb, uleb_size};
use crate::threads::threads_for;
use index_model::WriteStop;
use std::alloc::{AllocError, Global};
use std::thread::{Threads, for_each_mut};

/// Where the entries of each name begin in the pool, and how many bytes it has.
#[derive(Drop)]
pub(crate) struct PoolPlaces {
    pub starts: Vec<u32>,
    pub size: u64,
}

/// The places of the entries of these names, which are halved so often for threads.
pub(crate) fn pool_places<R: Threads + Sync>(
    rt: &R,
    alloc: Global,
    halvings: u32,
    abbreviations: &Abbreviations,
    names: &[Name<'_>],
) -> Result<PoolPlaces, WriteStop>
    requires { All (λ n. HaveRows abbreviations.now n.items.now) names.now }
    ensures { Answers result (ArePlacesIn abbreviations.now names.now) (4294967283 < length (pool_bytes abbreviations.now names.now)) }
{
    let sizes = group_sizes(rt, alloc, halvings, abbreviations, names)?;
    let mut starts = Vec::with_capacity(alloc, names.len())?;
    let size = push_starts(&mut starts, &sizes)?;
    Ok(PoolPlaces { starts, size })
}

// How many bytes the entries of each name have.
fn group_sizes<R: Threads + Sync>(
    rt: &R,
    alloc: Global,
    halvings: u32,
    abbreviations: &Abbreviations,
    names: &[Name<'_>],
) -> Result<Vec<u64>, AllocError>
    requires { All (λ n. HaveRows abbreviations.now n.items.now) names.now }
    ensures { IfOk result (λ v. v.items ≡ group_sizes abbreviations.now names.now) }
{
    let mut sizes = vec![in alloc; 0u64; names.len()]?;
    for_each_mut(
        rt,
        sizes.as_mut_slice(),
        threads_for(halvings, names.len()),
        &|place: usize, own: &mut u64| { *own = size_at(abbreviations, names, place) },
    );
    Ok(sizes)
}

// How many bytes the entries of the name at an index have.
fn size_at(abbreviations: &Abbreviations, names: &[Name<'_>], index: usize) -> u64
    requires index { index < length names.now }
    requires rows { All (λ n. HaveRows abbreviations.now n.items.now) names.now }
    ensures { result ≡ slice_index (group_sizes abbreviations.now names.now) index }
{
    group_size(abbreviations, names[index].items)
}

// Appends where entries of these sizes begin to no number. Gives the size of all.
fn push_starts(starts: &mut Vec<u32>, sizes: &[u64]) -> Result<u64, WriteStop>
    requires { starts.now.items ≡ [] }
    ensures { (rows : List IndexRow) (names : List Name) → sizes.now ≡ group_sizes rows names → Answers result (λ size. ArePlacesIn rows names (record { starts = starts.new; size = size })) (4294967283 < length (pool_bytes rows names)) }
{
    let mut end = 0;
    for size in sizes {
        starts.push(end as u32)?;
        end = grown(end, *size, MAX_INDEX)?;
    }
    Ok(end)
}

/// Appends the entries of all names.
pub(crate) fn push_pool(
    out: &mut Vec<u8>,
    abbreviations: &Abbreviations,
    names: &[Name<'_>],
) -> Result<(), AllocError>
    requires { All (λ n. HaveRows abbreviations.now n.items.now) names.now }
    ensures { OnOk result (out.new.items ≡ out.old.items ++ pool_bytes abbreviations.now names.now) }
{
    for name in names {
        push_group(out, abbreviations, name.items)?;
    }
    Ok(())
}

// How many bytes the entries of a name and the zero behind them have.
fn group_size(abbreviations: &Abbreviations, items: &[IndexEntry]) -> u64
    requires { HaveRows abbreviations.now items.now }
    ensures { result ≡ min (length (entries_bytes abbreviations.now items.now)) (2 ^ 64 - 1) }
{
    let mut size: u64 = 1;
    for item in items {
        let code = abbreviations.code_size(item.row);
        let more = code + uleb_size(u64::from(item.unit)) + 4;
        size = size.saturating_add(more);
    }
    size
}

// Appends the entries of a name and a zero.
fn push_group(
    out: &mut Vec<u8>,
    abbreviations: &Abbreviations,
    items: &[IndexEntry],
) -> Result<(), AllocError>
    requires { HaveRows abbreviations.now items.now }
    ensures { OnOk result (out.new.items ≡ out.old.items ++ entries_bytes abbreviations.now items.now) }
{
    for item in items {
        push_uleb(out, abbreviations.code(item.row))?;
        push_uleb(out, u64::from(item.unit))?;
        push_u32(out, item.offset)?;
    }
    out.push(0)?;
    Ok(())
}
