//! The bytes of a kept index.

ghost use Rattle.std.specs.Prelude.{◌≡◌, IfOk, OnOk};
ghost use Rattle.ix_base.specs.Moves.{MovesOn};
ghost use Rattle.index_model.specs.Gives.{GivesAlways};
ghost use Rattle.reach_model.specs.BuildIds.{IsBuildId};
ghost use Rattle.reach_model.specs.KeptIndexes.{kept_bytes, kept_id, kept_index};

use gdbindex_read::GdbIndex;
use ix_base::{Cursor, Fault, NoMemory};
use reach_model::code::{KEPT_BUILD_ID, KEPT_HEADER};
use std::alloc::Global;

/// What a kept index begins with.
const MAGIC: &[u8] = b"GDBIXC1\0";

/// How many bytes the length of the build-id has.
const SIZE_LENGTH: usize = 4;

/// The index that is kept for the program with this build-id, or the first fault of the bytes: they don't begin as a kept index or
/// the build-id is cut, it is another, or the index has a fault. The places of an index's faults are those in the index. It takes
/// as long as `GdbIndex::open`, and as much memory.
#[tactic(auto, unfolding(reach_model::specs::KeptIndexes::kept_index))]
pub fn open<'a>(alloc: Global, bytes: &'a [u8], id: &[u8]) -> Result<GdbIndex<'a>, Fault>
    ensures { GivesAlways (λ i. i) result (kept_index bytes.now id.now) }
{
    let mut cursor = Cursor::new(bytes, 0);
    if kept_id(&mut cursor)? != id {
        return Err(fault(KEPT_BUILD_ID));
    }
    GdbIndex::open(alloc, cursor.rest())
}

// The build-id that a kept index says.
#[tactic(auto, unfolding(reach_model::specs::KeptIndexes::kept_id))]
fn kept_id<'a>(cursor: &mut Cursor<'a>) -> Result<&'a [u8], Fault>
    ensures value { GivesAlways (λ id. (id.now, cursor.new)) result (kept_id cursor.old) }
    ensures place { MovesOn cursor.old cursor.new }
{
    if cursor.bytes(MAGIC.len() as u64).ok_or(fault(KEPT_HEADER))? != MAGIC {
        return Err(fault(KEPT_HEADER));
    }
    let size = cursor.u32().ok_or(fault(KEPT_HEADER))?;
    cursor.bytes(u64::from(size)).ok_or(fault(KEPT_HEADER))
}

// A fault of what stands before the index.
fn fault(code: u8) -> Fault
    ensures { result ≡ record { code = code; at = 0 } }
{
    Fault { code, at: 0 }
}

/// The bytes of an index that is kept for the program with this build-id. Room for all of them is taken at once.
#[tactic(auto, unfolding(reach_model::specs::KeptIndexes::kept_bytes))]
pub fn make(alloc: Global, id: &[u8], index: &[u8]) -> Result<Vec<u8>, NoMemory>
    requires { IsBuildId id.now }
    ensures { IfOk result (λ kept. kept.items ≡ kept_bytes id.now index.now) }
{
    let front = MAGIC.len() + SIZE_LENGTH + id.len();
    let mut kept = Vec::with_capacity(alloc, front.checked_add(index.len()).ok_or(NoMemory)?)?;
    kept.extend_from_slice(MAGIC)?;
    kept.extend_from_slice(&(id.len() as u32).to_le_bytes())?;
    kept.extend_from_slice(id)?;
    kept.extend_from_slice(index)?;
    Ok(kept)
}
