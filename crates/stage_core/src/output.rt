//! What jobs bring, and what is published of it.

ghost use Rattle.std.specs.Prelude.{◌≡◌, option_map, IfOk, Some, None};
ghost use Rattle.std.specs.Arc.{arc_value};
ghost use Rattle.index_model.specs.MachineEvents.{fault_in, is_memory};
ghost use Rattle.stage_core.specs.Outputs.{output_seen, parts_seen};

use address_map::AddressMap;
use index_model::{Entry, Linked, List, Main, Run, Shard};
use ix_base::Fault;
use query_engine::Table;
use std::alloc::AllocError;
use std::sync::Arc;

/// Main, and the unit at each address.
#[derive(Drop)]
pub struct Summary<'f> {
    /// None where the program has no main.
    pub main: Option<Main<'f>>,
    pub map: AddressMap,
}

/// The index that the last job writes.
#[derive(Drop)]
pub enum Cache {
    /// The bytes of a `.gdb_index`.
    Gdb(List<u8>),
    /// The bytes of a `.debug_names`, and those of the strings that it adds to `.debug_str`.
    Names(List<u8>, List<u8>),
    /// The format can't hold the index.
    TooLarge,
}

/// What has been published, shared.
#[derive(Drop)]
pub struct Parts<'f> {
    pub summary: Option<Arc<Summary<'f>>>,
    pub table: Option<Arc<Table<'f>>>,
    pub cache: Option<Arc<Cache>>,
    /// The first fault of a refused file.
    pub fault: Option<Fault>,
}

impl<'f> Parts<'f> {
    /// Nothing has been published.
    pub(crate) fn none() -> Parts<'f>
        ensures { parts_seen result ≡ record { summary = None; table = None; cache = None; fault = None } }
    {
        Parts {
            summary: None,
            table: None,
            cache: None,
            fault: None,
        }
    }

    /// The same parts, shared once more. Takes no memory.
    ///
    /// # Errors
    ///
    /// Where a part has as many owners as can be counted.
    pub fn share(&self) -> Result<Parts<'f>, AllocError>
        ensures { IfOk result (λ p. parts_seen p ≡ parts_seen self.now) }
    {
        Ok(Parts {
            summary: share(&self.summary)?,
            table: share(&self.table)?,
            cache: share(&self.cache)?,
            fault: self.fault,
        })
    }
}

/// The same part, shared once more.
pub(crate) fn share<T>(part: &Option<Arc<T>>) -> Result<Option<Arc<T>>, AllocError>
    ensures { IfOk result (λ o. option_map arc_value o ≡ option_map arc_value part.now) }
{
    match part {
        Some(part) => Ok(Some(Arc::try_clone(part)?)),
        None => Ok(None),
    }
}

/// What a job brings, shared where later jobs or readers use it.
#[derive(Drop)]
pub enum Output<'f> {
    Shard(Arc<Shard<'f>>),
    Linked(Arc<Linked<'f>>),
    Summary(Arc<Summary<'f>>),
    Run(Run<'f>),
    Table(Arc<Table<'f>>),
    Cache(Arc<Cache>),
    /// The first fault that the job met.
    Fault(Fault),
    /// Memory was refused.
    Memory,
}

impl Output<'_> {
    /// The fault that the job met.
    pub(crate) fn fault(&self) -> Option<Fault>
        ensures { result ≡ fault_in (Some (output_seen self.now)) }
    {
        match self {
            Output::Fault(fault) => Some(*fault),
            _ => None,
        }
    }

    /// Whether memory was refused to the job.
    pub(crate) fn wants_memory(&self) -> bool
        ensures { result ≡ is_memory (output_seen self.now) }
    {
        matches!(self, Output::Memory)
    }
}
