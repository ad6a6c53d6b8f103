//! Which name stands in which slot of the symbol table (GDB manual, "Index Section Format").

ghost use Rattle.std.specs.Prelude.{◌≡◌, ◌<◌, ◌^◌, ℕ, length, map, find, replicate, slice_index, Some, None, IfOk};
ghost use Rattle.index_model.specs.Layout.{below};
ghost use Rattle.index_model.specs.Hashes.{gdb_hash, lower, odd, slot_on_path};
ghost use Rattle.index_model.specs.GdbSlots.{slot_count, slots_of};
ghost use Rattle.gdbindex_write.specs.Slots.{is_free, numbers_in_slots, IsFront};
ghost use Rattle.gdbindex_write.specs.Symbols.{names_of};

use crate::symbols::Symbol;
use ix_base::NoMemory;
use std::alloc::Global;

/// How many slots so many names have: none for no names, else the least power of two of which they fill three quarters at
/// most.
pub(crate) fn slot_count(names: u64) -> u64
    requires { names < 2 ^ 32 }
    ensures exact { result ≡ slot_count names }
    ensures small { result < 2 ^ 34 }
{
    if names == 0 {
        return 0;
    }
    let mut slots = 1;
    for doubled in 0..34u64 {
        if 4 * names <= 3 * slots {
            return slots;
        }
        slots *= 2;
    }
    slots
}

/// The number of the name in each slot. Names go in their order, each into the first slot on its path that is still free.
///
/// Slots only fill, so a path is followed on from where its last name went: names that share one path pass its slots once.
pub(crate) fn numbers_in_slots(
    alloc: Global,
    symbols: &[Symbol<'_>],
) -> Result<Vec<Option<u32>>, NoMemory>
    requires { length symbols.now < 2 ^ 32 }
    ensures { IfOk result (λ v. v.items ≡ numbers_in_slots (names_of symbols.now)) }
{
    let count = slot_count(symbols.len() as u64) as usize;
    let mut slots = empty_slots(alloc, count)?;
    // Where each path is followed on, by the slot that it begins with.
    let mut fronts = path_begins(alloc, count)?;
    for (number, symbol) in symbols.iter().enumerate() {
        let begin = gdb_hash(symbol.name) as usize % count;
        let slot = free_slot(&slots, begin, fronts[begin]);
        fronts[begin] = slot;
        slots[slot] = Some(number as u32);
    }
    Ok(slots)
}

// So many slots without a number.
fn empty_slots(alloc: Global, count: usize) -> Result<Vec<Option<u32>>, NoMemory>
    ensures { IfOk result (λ v. v.items ≡ replicate count None) }
{
    let mut slots = Vec::with_capacity(alloc, count)?;
    for filled in 0..count {
        slots.push(None)?;
    }
    Ok(slots)
}

// The begin of the path that begins with each of so many slots.
fn path_begins(alloc: Global, count: usize) -> Result<Vec<usize>, NoMemory>
    ensures size { IfOk result (λ v. length v.items ≡ count) }
    ensures each { IfOk result (λ v. (begin : ℕ) → begin < count → slice_index v.items begin ≡ begin) }
{
    let mut fronts = Vec::with_capacity(alloc, count)?;
    for begin in 0..count {
        fronts.push(begin)?;
    }
    Ok(fronts)
}

// The first free slot on the path that begins with a slot, if one is free. No slot of the path before its front is.
fn free_slot(slots: &[Option<u32>], begin: usize, front: usize) -> usize
    requires begin { begin < length slots.now }
    requires few { length slots.now < 2 ^ 34 }
    requires front { IsFront slots.now begin front }
    ensures { (slot : ℕ) → find (is_free slots.now) (map (slot_on_path (length slots.now) begin) (below (length slots.now))) ≡ Some slot → (result ≡ slot) × IsFront slots.now begin result }
{
    let count = slots.len();
    // The step is odd, so that the path has each slot.
    let step = odd(begin * 17 % count);
    let mut slot = front;
    for tried in 0..count {
        if slots[slot].is_none() {
            return slot;
        }
        slot = (slot + step) % count;
    }
    front
}

// The number with its lowest bit set.
fn odd(number: usize) -> usize
    requires { number < 2 ^ 63 }
    ensures { result ≡ odd number }
{
    number - number % 2 + 1
}

// The hash of a name, in which capitals count as small letters.
fn gdb_hash(name: &[u8]) -> u32
    ensures { result ≡ gdb_hash name.now }
{
    const MODULUS: u64 = 1 << 32;
    let mut hash: u64 = 0;
    for byte in name {
        hash = (hash * 67 + u64::from(lower(*byte)) + MODULUS - 113) % MODULUS;
    }
    hash as u32
}

// A to Z as a to z.
fn lower(byte: u8) -> u8
    ensures { result ≡ lower byte }
{
    if b'A' <= byte && byte <= b'Z' {
        byte + 32
    } else {
        byte
    }
}
