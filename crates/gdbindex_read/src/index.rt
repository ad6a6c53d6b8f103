//! The whole index, and its look-ups.

ghost use Rattle.std.specs.Prelude.{◌≡◌, option_map};
ghost use Rattle.index_model.specs.GdbIndexRead.{gdb_index, gdb_index_hits, main_name, number_at};
ghost use Rattle.index_model.specs.Gives.{Gives, GivesAlways};
ghost use Rattle.index_model.specs.Seen.{main_seen};

use crate::elements::Elements;
use crate::parts::Parts;
use index_model::MainName;
use ix_base::{Fault, Stop};
use std::alloc::Global;
use std::marker::Model;

/// A `.gdb_index` without a fault. It borrows the bytes, and contracts see what they mean.
#[derive(Drop)]
pub struct GdbIndex<'a> {
    parts: Parts<'a>,
}

impl<'a> Model for GdbIndex<'a> {
    ghost use Rattle.index_model.specs.GdbIndexRead.{GdbIndex};

    ghost Value = { GdbIndex };

    ghost use Rattle.gdbindex_read.specs.Index.{index_seen, IsAnIndex};

    ghost view = { index_seen };

    ghost invariant = { λ i. IsAnIndex (index_seen i) };
}

impl<'a> GdbIndex<'a> {
    /// The index in these bytes, or its first fault, with its place in them.
    ///
    /// Whatever the bytes are, no part of the constant pool is read again for each slot that has it: strings that are ends of one
    /// text are hashed in one pass, vectors that many slots share or that begin inside one another are read once, and slots whose
    /// names share a path are found in one walk along it. So all but the paths cost n log n, and so do they as far as slots are empty: in a
    /// table that is full each name may lead past all others, which `open_limited` ends. It takes memory in proportion to the bytes;
    /// where none is left the answer is the same, but such names, vectors and paths are gone over one by one.
    pub fn open(alloc: Global, bytes: &'a [u8]) -> Result<GdbIndex<'a>, Fault>
        ensures { GivesAlways (λ i. i) result (gdb_index bytes.now) }
    {
        let parts = Parts::open(alloc, bytes)?;
        parts.symbols.check_paths(alloc)?;
        Ok(GdbIndex { parts })
    }

    /// The same, or `Stop::Memory` where more bytes would be gone over along the paths of names than 16 for each of the symbol table,
    /// and 64 MiB.
    pub fn open_limited(alloc: Global, bytes: &'a [u8]) -> Result<GdbIndex<'a>, Stop>
        ensures { Gives (λ i. i) result (gdb_index bytes.now) }
    {
        let parts = Parts::open(alloc, bytes)?;
        parts.symbols.check_short_paths(alloc)??;
        Ok(GdbIndex { parts })
    }

    /// The elements of a name: those of each slot that isn't empty and whose string is the name, in the order of the table.
    /// The path of the name is walked up to the first slot that is empty or has the name.
    pub fn find(&self, name: &[u8]) -> Elements<'a>
        ensures { result ≡ gdb_index_hits self.now name.now }
    {
        self.parts.symbols.find(name)
    }

    /// The index number of the unit of the first address entry that contains the address. An entry doesn't contain its end.
    /// The entries may be in any order, so they are gone over one by one.
    pub fn unit_at(&self, address: u64) -> Option<u32>
        ensures { result ≡ number_at self.now address }
    {
        self.parts.addresses.unit_at(address)
    }

    /// The language of main and its name, where the index has them and the language fits in 16 bits.
    pub fn main_name(&self) -> Option<MainName<'a>>
        ensures { option_map main_seen result ≡ main_name self.now }
    {
        let main = self.parts.main?;
        if main.language > u32::from(u16::MAX) {
            return None;
        }
        Some(MainName {
            language: main.language as u16,
            name: main.name,
        })
    }
}
