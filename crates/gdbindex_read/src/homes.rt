//! Where the paths of names begin.

ghost use Rattle.std.specs.Prelude.{◌≡◌, ◌<◌, IfSome, ℕ, Some, length, slice_index};
ghost use Rattle.gdbindex_read.specs.Areas.{item};
ghost use Rattle.gdbindex_read.specs.declared.slots.Slot.{Slot as FoundSlot};
ghost use Rattle.string_ends.specs.declared.hashed.Hashed.{Hashed as HashedName};
ghost use Rattle.string_ends.specs.declared.formula.Formula.TheVariants.{GdbIndex};
ghost use Rattle.gdbindex_read.specs.Homes.{AreHomes, IsHome};
ghost use Rattle.gdbindex_read.specs.Slots.{slot_count, slot_in, slots_seen, table_of};
ghost use Rattle.string_ends.specs.Tails.{IsHashed};

use crate::symbols::SymbolTable;
use std::alloc::Global;
use string_ends::{Formula, Hashed, hashes_of};

/// The slot at which the path of a slot's name begins, and a number that tells the name from most others.
#[derive(Clone, Copy)]
pub(crate) struct PathStart {
    pub begin: usize,
    pub print: u64,
}

impl SymbolTable<'_> {
    /// The homes of slots, None of an empty one. None of all where no memory is left for them.
    pub fn homes(&self, alloc: Global) -> Option<Vec<Option<PathStart>>>
        ensures { IfSome result (λ v. AreHomes (slots_seen self.now) v.items) }
    {
        let offsets = self.offsets(alloc)?;
        let hashes = hashes_of(alloc, Formula::GdbIndex, self.pool, &offsets)?;
        let mut homes = Vec::with_capacity(alloc, self.len()).ok()?;
        for place in 0..self.len() {
            let Ok(()) = homes.push(self.home(place, hashes[place])) else {
                return None;
            };
        }
        Some(homes)
    }

    // Where the names of slots begin. That of an empty one doesn't count.
    fn offsets(&self, alloc: Global) -> Option<Vec<u64>>
        ensures size { IfSome result (λ v. length v.items ≡ slot_count self.now) }
        ensures names { IfSome result (λ v. (k : ℕ) (slot : FoundSlot) → k < slot_count self.now → slot_in (item 8 (table_of self.now) k).rest ≡ Some slot → slice_index v.items k ≡ slot.name) }
    {
        let mut offsets = Vec::with_capacity(alloc, self.len()).ok()?;
        for place in 0..self.len() {
            let Ok(()) = offsets.push(self.offset(place)) else {
                return None;
            };
        }
        Some(offsets)
    }

    // Where the name of a slot begins, or 0.
    fn offset(&self, place: usize) -> u64
        requires { place < slot_count self.now }
        ensures { (slot : FoundSlot) → slot_in (item 8 (table_of self.now) place).rest ≡ Some slot → result ≡ slot.name }
    {
        match self.slot(place) {
            Some(slot) => u64::from(slot.name),
            None => 0,
        }
    }

    // The home of a slot, by what is known of its name.
    fn home(&self, place: usize, name: Option<Hashed>) -> Option<PathStart>
        requires place { place < slot_count self.now }
        requires name { (slot : FoundSlot) (h : HashedName) → slot_in (item 8 (table_of self.now) place).rest ≡ Some slot → name ≡ Some h → IsHashed GdbIndex self.now.pool.now slot.name h }
        ensures { IfSome result (IsHome (slots_seen self.now) place) }
    {
        match (self.slot(place), name) {
            (Some(_), Some(name)) => Some(PathStart {
                begin: name.hash as usize % self.len(),
                print: name.print,
            }),
            (None, _) | (_, None) => None,
        }
    }
}
