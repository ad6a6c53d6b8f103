//! What calls that may be refused bring as outputs of jobs.

ghost use Rattle.std.specs.Prelude.{◌≡◌};
ghost use Rattle.index_model.specs.Outputs.{ShardOf, LinkedOf, RunOf, SummaryOf, TableOf};
ghost use Rattle.stage_core.specs.Outputs.{output_seen, summary_seen};
ghost use Rattle.index_pool.specs.Outputs.{BringsAs, output_of, output_or_memory, cache_output, gdb_output, names_output};

use debugnames_write::NameBytes;
use index_model::{Linked, List, Run, Shard, TooLarge, WriteStop};
use ix_base::{NoMemory, OrMemory, Stop};
use query_engine::Table;
use stage_core::{Cache, Output, Summary};
use std::alloc::Global;
use std::sync::Arc;

/// The shard of a run, or its first fault.
pub(crate) fn of_scan<'f>(alloc: Global, scanned: Result<Shard<'f>, Stop>) -> Output<'f>
    ensures { BringsAs (output_of ShardOf scanned.entry) (output_seen result) }
{
    match scanned {
        Ok(shard) => Arc::new(alloc, shard).map_or(Output::Memory, Output::Shard),
        Err(Stop::Cause(fault)) => Output::Fault(fault),
        Err(Stop::Memory) => Output::Memory,
    }
}

/// The links of a run, or their first fault.
pub(crate) fn of_link<'f>(alloc: Global, linked: Result<Linked<'f>, Stop>) -> Output<'f>
    ensures { BringsAs (output_of LinkedOf linked.entry) (output_seen result) }
{
    match linked {
        Ok(linked) => Arc::new(alloc, linked).map_or(Output::Memory, Output::Linked),
        Err(Stop::Cause(fault)) => Output::Fault(fault),
        Err(Stop::Memory) => Output::Memory,
    }
}

/// Main and the map, or the first fault of the ranges.
pub(crate) fn of_main<'f>(alloc: Global, summary: Result<Summary<'f>, Stop>) -> Output<'f>
    ensures { BringsAs (output_of (λ m. SummaryOf (summary_seen m)) summary.entry) (output_seen result) }
{
    match summary {
        Ok(summary) => Arc::new(alloc, summary).map_or(Output::Memory, Output::Summary),
        Err(Stop::Cause(fault)) => Output::Fault(fault),
        Err(Stop::Memory) => Output::Memory,
    }
}

/// The entries of a run.
pub(crate) fn of_name<'f>(run: Result<Run<'f>, NoMemory>) -> Output<'f>
    ensures { output_seen result ≡ output_or_memory RunOf run.entry }
{
    match run {
        Ok(run) => Output::Run(run),
        Err(NoMemory) => Output::Memory,
    }
}

/// The table.
pub(crate) fn of_merge<'f>(alloc: Global, table: Result<Table<'f>, NoMemory>) -> Output<'f>
    ensures { BringsAs (output_or_memory TableOf table.entry) (output_seen result) }
{
    match table {
        Ok(table) => Arc::new(alloc, table).map_or(Output::Memory, Output::Table),
        Err(NoMemory) => Output::Memory,
    }
}

/// The index. None where memory was refused.
pub(crate) fn of_cache<'f>(alloc: Global, cache: Option<Cache>) -> Output<'f>
    ensures { BringsAs (cache_output cache) (output_seen result) }
{
    match cache {
        Some(cache) => match Arc::new(alloc, cache) {
            Ok(cache) => Output::Cache(cache),
            Err(_) => Output::Memory,
        },
        None => Output::Memory,
    }
}

/// The bytes of a `.gdb_index`. None where memory was refused.
pub(crate) fn gdb_cache(written: Result<Vec<u8>, WriteStop>) -> Option<Cache>
    ensures { cache_output result ≡ gdb_output written }
{
    match written {
        Ok(bytes) => Some(Cache::Gdb(List::of(bytes))),
        Err(OrMemory::Cause(TooLarge)) => Some(Cache::TooLarge),
        Err(OrMemory::Memory) => None,
    }
}

/// The bytes of a `.debug_names` and of its strings. None where memory was refused.
pub(crate) fn names_cache(written: Result<NameBytes, WriteStop>) -> Option<Cache>
    ensures { cache_output result ≡ names_output written }
{
    match written {
        Ok(bytes) => Some(Cache::Names(bytes.names, bytes.strings)),
        Err(OrMemory::Cause(TooLarge)) => Some(Cache::TooLarge),
        Err(OrMemory::Memory) => None,
    }
}
