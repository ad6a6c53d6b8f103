//! The hashes of names (DWARF 5, sections 6.1.1.4.5 and 7.33).

ghost use Rattle.std.specs.Prelude.{◌≡◌, ◌<◌, length, slice_index, IfOk};
ghost use Rattle.index_model.specs.Hashes.{name_hash, lower};
ghost use Rattle.debugnames_write.specs.Groups.{group_hashes};

use crate::groups::NameEntries;
use crate::threads::threads_for;
use std::alloc::{AllocError, Global};
use std::thread::{Threads, for_each_mut};

const START: u32 = 5381;

/// The hash of the name of each group. The groups are halved so often for threads.
pub(crate) fn hashes_of<R: Threads + Sync>(
    rt: &R,
    alloc: Global,
    halvings: u32,
    groups: &[NameEntries<'_>],
) -> Result<Vec<u32>, AllocError>
    ensures { IfOk result (λ v. v.items ≡ group_hashes groups.now) }
{
    let mut hashes = vec![in alloc; 0u32; groups.len()]?;
    for_each_mut(
        rt,
        hashes.as_mut_slice(),
        threads_for(halvings, groups.len()),
        &|place: usize, own: &mut u32| { *own = hash_at(groups, place) },
    );
    Ok(hashes)
}

// The hash of the name of the group at an index.
fn hash_at(groups: &[NameEntries<'_>], index: usize) -> u32
    requires { index < length groups.now }
    ensures { result ≡ slice_index (group_hashes groups.now) index }
{
    name_hash(groups[index].name)
}

// The hash of a name, A to Z counting as a to z.
fn name_hash(name: &[u8]) -> u32
    ensures { result ≡ name_hash name.now }
{
    let mut hash = START;
    for byte in name {
        hash = hash.wrapping_mul(33).wrapping_add(u32::from(lower(*byte)));
    }
    hash
}

// A to Z as a to z.
fn lower(byte: u8) -> u8
    ensures { result ≡ lower byte }
{
    if byte >= b'A' && byte <= b'Z' {
        byte + 32
    } else {
        byte
    }
}
