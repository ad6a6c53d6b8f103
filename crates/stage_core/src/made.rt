//! What a job made, by its type.

ghost use Rattle.std.specs.Prelude.{◌≡◌, option_map};
ghost use Rattle.std.specs.Arc.{arc_value};
ghost use Rattle.index_model.specs.MachineEvents.{made_in};
ghost use Rattle.index_model.specs.Parts.{summary_in, table_in, index_in};
ghost use Rattle.stage_core.specs.Inputs.{shard_in, linked_in, run_in};
ghost use Rattle.stage_core.specs.Outputs.{summary_seen, cache_seen};
ghost use Rattle.stage_core.specs.Slots.{slot_seen, made_as};

use crate::output::{Cache, Output, Summary};
use index_model::{Linked, Run, Shard};
use query_engine::Table;
use std::sync::Arc;

/// The shard.
pub(crate) fn shard_of<'s, 'f>(slot: &'s Option<Output<'f>>) -> Option<&'s Arc<Shard<'f>>>
    ensures { option_map (λ a. arc_value a.now) result ≡ made_as shard_in slot.now }
{
    match slot {
        Some(Output::Shard(shard)) => Some(shard),
        _ => None,
    }
}

/// The links of a run.
pub(crate) fn linked_of<'s, 'f>(slot: &'s Option<Output<'f>>) -> Option<&'s Arc<Linked<'f>>>
    ensures { option_map (λ a. arc_value a.now) result ≡ made_as linked_in slot.now }
{
    match slot {
        Some(Output::Linked(linked)) => Some(linked),
        _ => None,
    }
}

/// The entries of a run.
pub(crate) fn run_of<'f>(slot: Option<Output<'f>>) -> Option<Run<'f>>
    ensures { result ≡ made_as run_in slot.entry }
{
    match slot {
        Some(Output::Run(run)) => Some(run),
        _ => None,
    }
}

/// The summary.
pub(crate) fn summary_of<'s, 'f>(slot: &'s Option<Output<'f>>) -> Option<&'s Arc<Summary<'f>>>
    ensures { option_map (λ a. summary_seen (arc_value a.now)) result ≡ summary_in (made_in (slot_seen slot.now)) }
{
    match slot {
        Some(Output::Summary(summary)) => Some(summary),
        _ => None,
    }
}

/// The table.
pub(crate) fn table_of<'s, 'f>(slot: &'s Option<Output<'f>>) -> Option<&'s Arc<Table<'f>>>
    ensures { option_map (λ a. arc_value a.now) result ≡ table_in (made_in (slot_seen slot.now)) }
{
    match slot {
        Some(Output::Table(table)) => Some(table),
        _ => None,
    }
}

/// The index.
pub(crate) fn cache_of<'s>(slot: &'s Option<Output<'_>>) -> Option<&'s Arc<Cache>>
    ensures { option_map (λ a. cache_seen (arc_value a.now)) result ≡ index_in (made_in (slot_seen slot.now)) }
{
    match slot {
        Some(Output::Cache(cache)) => Some(cache),
        _ => None,
    }
}
