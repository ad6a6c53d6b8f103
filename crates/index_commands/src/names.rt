//! `look names`: the entries of a name in a `.debug_names`.

ghost use Rattle.std.specs.Prelude.{◌≤◌, length};
ghost use Rattle.ix_base.specs.declared.limits.TheConstants.{MAX_FILE_BYTES};
ghost use Rattle.outside.specs.Counts.{Rose};
ghost use Rattle.command_base.specs.Replies.{CausesOfResult, Wrote};
ghost use Rattle.index_commands.specs.NamesLooks.{SaysNames};

use command_base::{Status, ended};
use debugnames_read::NameIndex;
use name_quotes::Spelling;
use outside::Sink;
use query_text::{write_hits, write_index_fault};
use std::alloc::Global;

/// How an index is looked up.
#[derive(Clone, Copy)]
pub struct NamesLook {
    /// The offset in the string section of the first byte of the strings.
    pub base: u32,
    /// How names are written.
    pub spelling: Spelling,
}

/// Writes the entries of the name in the index in these bytes, whose names stand in the strings from the base on, or its first
/// fault.
pub fn look_names<K: Sink>(
    alloc: Global,
    bytes: &[u8],
    strings: &[u8],
    look: NamesLook,
    name: &[u8],
    out: &mut K,
) -> Status
    requires { length bytes.now ≤ MAX_FILE_BYTES }
    ensures wrote { Wrote (SaysNames bytes.now strings.now look name.now) result (K.written out.old) (K.written out.new) }
    ensures causes { CausesOfResult (Rose (K.write_faults out.old) (K.write_faults out.new)) result }
    ensures counts { K.write_faults out.old ≤ K.write_faults out.new }
{
    match NameIndex::open(alloc, bytes, strings, u64::from(look.base)) {
        Ok(index) => ended(
            write_hits(out, look.spelling, name, &index),
            Status::Answered,
        ),
        Err(fault) => ended(write_index_fault(out, fault), Status::IndexRefused),
    }
}
