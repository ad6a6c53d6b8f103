//! What the jobs of a kind brought.

ghost use Rattle.std.specs.Prelude.{◌≡◌, ◌≤◌, ◌+◌, ◌++◌, length, is_none, not, option_map, map, filter_map, slice_get, replicate, vec_len, vec_capacity, IfOk, OnOk, None};
ghost use Rattle.std.specs.Arc.{arc_value};
ghost use Rattle.std.specs.List.{list_any};
ghost use Rattle.std.specs.Option.{option_to_list};
ghost use Rattle.index_model.specs.MachineEvents.{least_fault as least_fault_of, fault_in as fault_of};
ghost use Rattle.index_model.specs.Parts.{summary_in as summary_made, table_in as table_made, index_in as index_made};
ghost use Rattle.stage_core.specs.Inputs.{shard_in, linked_in as link_in, run_in};
ghost use Rattle.stage_core.specs.Outputs.{summary_seen, cache_seen};
ghost use Rattle.stage_core.specs.Slots.{slot_seen, slots_seen, made_of_slots};

use crate::made::{cache_of, linked_of, run_of, shard_of, summary_of, table_of};
use crate::output::{Cache, Output, Summary};
use index_model::{Linked, Run, Shard};
use ix_base::Fault;
use query_engine::Table;
use std::alloc::{AllocError, Global};
use std::sync::Arc;

/// What each job of a kind brought, in their order. None where it isn't finished.
pub(crate) type Slots<'f> = Vec<Option<Output<'f>>>;

/// The slots of so many jobs, none of which is finished.
pub(crate) fn vacant<'f>(alloc: Global, jobs: u32) -> Result<Slots<'f>, AllocError>
    ensures vacant { IfOk result (λ slots. slots.items ≡ replicate jobs None) }
    ensures seen { IfOk result (λ slots. slots_seen slots.items ≡ replicate jobs None) }
{
    let mut slots = Vec::with_capacity(alloc, jobs as usize)?;
    for _job in 0..jobs {
        slots.push(None)?;
    }
    Ok(slots)
}

/// Whether all jobs are finished.
pub(crate) fn is_whole(slots: &[Option<Output<'_>>]) -> bool
    ensures { result ≡ not (list_any is_none (slots_seen slots.now)) }
{
    for slot in slots {
        if slot.is_none() {
            return false;
        }
    }
    true
}

/// The fault of the least job that met one.
pub(crate) fn least_fault(slots: &[Option<Output<'_>>]) -> Option<Fault>
    ensures { result ≡ least_fault_of (slots_seen slots.now) }
{
    for slot in slots {
        if let Some(fault) = fault_in(slot) {
            return Some(fault);
        }
    }
    None
}

// The fault that a job met.
fn fault_in(slot: &Option<Output<'_>>) -> Option<Fault>
    ensures { result ≡ fault_of (slot_seen slot.now) }
{
    match slot {
        Some(output) => output.fault(),
        None => None,
    }
}

/// The shards that jobs made.
pub(crate) fn shards_in<'f>(
    alloc: Global,
    slots: &[Option<Output<'f>>],
) -> Result<Vec<Arc<Shard<'f>>>, AllocError>
    ensures { IfOk result (λ v. map arc_value v.items ≡ filter_map shard_in (made_of_slots slots.now)) }
{
    let mut shards = Vec::with_capacity(alloc, slots.len())?;
    for slot in slots {
        push_shared(&mut shards, shard_of(slot))?;
    }
    Ok(shards)
}

/// The links that jobs made.
pub(crate) fn linked_in<'f>(
    alloc: Global,
    slots: &[Option<Output<'f>>],
) -> Result<Vec<Arc<Linked<'f>>>, AllocError>
    ensures { IfOk result (λ v. map arc_value v.items ≡ filter_map link_in (made_of_slots slots.now)) }
{
    let mut all = Vec::with_capacity(alloc, slots.len())?;
    for slot in slots {
        push_shared(&mut all, linked_of(slot))?;
    }
    Ok(all)
}

// Adds what a job made, if it did, shared once more.
fn push_shared<T: Drop>(all: &mut Vec<Arc<T>>, made: Option<&Arc<T>>) -> Result<(), AllocError>
    ensures { OnOk result (map arc_value all.new.items ≡ map arc_value all.old.items ++ option_to_list (option_map (λ a. arc_value a.now) made.entry)) }
{
    if let Some(made) = made {
        all.push(Arc::try_clone(made)?)?;
    }
    Ok(())
}

/// Moves the runs that jobs made behind others. There is room for them.
pub(crate) fn move_runs<'f>(slots: &mut [Option<Output<'f>>], runs: &mut Vec<Run<'f>>)
    requires { vec_len runs.old + length slots.old ≤ vec_capacity runs.old }
    ensures { runs.new.items ≡ runs.old.items ++ filter_map run_in (made_of_slots slots.old) }
{
    for slot in slots.iter_mut() {
        if let Some(run) = run_of(slot.take()) {
            runs.push_reserved(run);
        }
    }
}

/// The summary that the only job made.
pub(crate) fn summary_in<'f>(
    slots: &[Option<Output<'f>>],
) -> Result<Option<Arc<Summary<'f>>>, AllocError>
    requires { length slots.now ≡ 1 }
    ensures { IfOk result (λ o. option_map (λ m. summary_seen (arc_value m)) o ≡ summary_made (slice_get (made_of_slots slots.now) 0)) }
{
    match summary_of(&slots[0]) {
        Some(summary) => Ok(Some(Arc::try_clone(summary)?)),
        None => Ok(None),
    }
}

/// The table that the only job made.
pub(crate) fn table_in<'f>(
    slots: &[Option<Output<'f>>],
) -> Result<Option<Arc<Table<'f>>>, AllocError>
    requires { length slots.now ≡ 1 }
    ensures { IfOk result (λ o. option_map arc_value o ≡ table_made (slice_get (made_of_slots slots.now) 0)) }
{
    match table_of(&slots[0]) {
        Some(table) => Ok(Some(Arc::try_clone(table)?)),
        None => Ok(None),
    }
}

/// The index that the only job made.
pub(crate) fn cache_in(slots: &[Option<Output<'_>>]) -> Result<Option<Arc<Cache>>, AllocError>
    requires { length slots.now ≡ 1 }
    ensures { IfOk result (λ o. option_map (λ c. cache_seen (arc_value c)) o ≡ index_made (slice_get (made_of_slots slots.now) 0)) }
{
    match cache_of(&slots[0]) {
        Some(cache) => Ok(Some(Arc::try_clone(cache)?)),
        None => Ok(None),
    }
}
