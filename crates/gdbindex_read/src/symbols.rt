//! The symbol table: which elements a name has.

ghost use Rattle.std.specs.Prelude.{◌≡◌, ◌<◌, ◌^◌, ℕ, true, bytes_eq, length, IfOk, IfSome, Some};
ghost use Rattle.std.specs.List.{enumerate_from};
ghost use Rattle.index_model.specs.GdbIndexRead.{is_other, is_table_size, reached, slot_or_none};
ghost use Rattle.index_model.specs.declared.index_code.TheConstants.{GDB_LOST_SLOT as LOST_SLOT};
ghost use Rattle.index_model.specs.GdbPath.{elements_at, path_end};
ghost use Rattle.index_model.specs.Gives.{GivesAlways};
ghost use Rattle.index_model.specs.Meaning.{each, wrong_in};
ghost use Rattle.gdbindex_read.specs.Areas.{areas_seen, item};
ghost use Rattle.gdbindex_read.specs.Homes.{AreFound, AreHomesOf};
ghost use Rattle.string_ends.specs.Tails.{print_of};
ghost use Rattle.gdbindex_read.specs.Slots.{checked_slots, elements_in, is_reached, name_in, slot_count, slot_in, slots_seen, table_of};

use crate::area::{Area, fault};
use crate::areas::Areas;
use crate::elements::Elements;
use crate::path::Path;
use crate::slots::{SLOT_LENGTH, Slot, check_size, check_slots, string_at};
use crate::walks::FoundSlots;
use index_model::index_code::GDB_LOST_SLOT;
use ix_base::{Fault, NoMemory};
use reading_limit::ReadingLimit;
use std::alloc::Global;
use string_ends::is_text;

// How many bytes may be gone over along paths: so many for each byte of the table, and so many beside. Slots that are all full may be
// passed by each name.
const PASSED_PER_BYTE: u64 = 16;

const PASSED_BESIDE: u64 = 1 << 26;

/// The symbol table of an index, and the constant pool that its slots lead to.
#[derive(Clone, Copy)]
pub(crate) struct SymbolTable<'a> {
    table: Area<'a>,
    pub pool: &'a [u8],
}

impl<'a> SymbolTable<'a> {
    /// The symbol table of an index, or its first fault: the slots are neither none nor a power of two, or a slot's name or
    /// vector has no end in the constant pool, or an element is of no unit. `check_paths` tests the rest.
    pub fn open(alloc: Global, areas: &Areas<'a>) -> Result<SymbolTable<'a>, Fault>
        requires { length areas.now.table.bytes.now < 2 ^ 32 }
        ensures value { GivesAlways slots_seen result (checked_slots (areas_seen areas.now)) }
        ensures size { IfOk result (λ s. is_table_size (slot_count s) ≡ true) }
        ensures few { IfOk result (λ s. slot_count s < 2 ^ 32) }
    {
        check_size(&areas.table)?;
        check_slots(alloc, areas)?;
        Ok(SymbolTable {
            table: areas.table,
            pool: areas.pool.bytes,
        })
    }

    /// Each slot that isn't empty is found by its name, or else the fault of the first that isn't: an empty slot or one with
    /// the same name stands before it on the path.
    pub fn check_paths(&self, alloc: Global) -> Result<(), Fault>
        requires size { is_table_size (slot_count self.now) ≡ true }
        requires few { slot_count self.now < 2 ^ 32 }
        ensures { wrong_in result ≡ wrong_in (each (reached (slots_seen self.now)) (enumerate_from 0 (slots_seen self.now))) }
    {
        match self.check_short_paths(alloc) {
            Ok(checked) => checked,
            Err(NoMemory) => self.check_each_path(),
        }
    }

    /// The same, as long as no more bytes are gone over along paths than 16 for each of the table, and 64 MiB.
    pub fn check_short_paths(&self, alloc: Global) -> Result<Result<(), Fault>, NoMemory>
        requires size { is_table_size (slot_count self.now) ≡ true }
        requires few { slot_count self.now < 2 ^ 32 }
        ensures { IfOk result (λ checked. wrong_in checked ≡ wrong_in (each (reached (slots_seen self.now)) (enumerate_from 0 (slots_seen self.now)))) }
    {
        let mut limit = self.path_limit();
        let found = FoundSlots::of(alloc, self, &mut limit);
        let count = self.len();
        for place in 0..count {
            let is_found = self.is_found(&found, place, &mut limit)?;
            if !is_found {
                return Ok(Err(self.lost(place)));
            }
        }
        Ok(Ok(()))
    }

    // The same, slot by slot and however long the paths are.
    fn check_each_path(&self) -> Result<(), Fault>
        requires size { is_table_size (slot_count self.now) ≡ true }
        ensures { wrong_in result ≡ wrong_in (each (reached (slots_seen self.now)) (enumerate_from 0 (slots_seen self.now))) }
    {
        let count = self.len();
        for place in 0..count {
            if !self.is_reached(place) {
                return Err(self.lost(place));
            }
        }
        Ok(())
    }

    // The fault of a slot that isn't found by its name.
    fn lost(&self, place: usize) -> Fault
        requires { place < slot_count self.now }
        ensures { result ≡ record { code = LOST_SLOT; at = (item 8 (table_of self.now) place).at } }
    {
        fault(GDB_LOST_SLOT, self.table.at + SLOT_LENGTH * place)
    }

    // How many bytes may be gone over along paths.
    fn path_limit(&self) -> ReadingLimit {
        let mut limit = ReadingLimit::of(PASSED_BESIDE);
        limit.widen((self.table.bytes.len() as u64).saturating_mul(PASSED_PER_BYTE));
        limit
    }

    /// The elements of a name. Where each slot is found by its name, no slot behind the end of the path has it.
    pub fn find(&self, name: &[u8]) -> Elements<'a>
        ensures { result ≡ elements_at (slots_seen self.now) name.now (path_end (slots_seen self.now) name.now) }
    {
        let Some(place) = self.path_end(name) else {
            return Elements::none();
        };
        match self.slot(place) {
            Some(slot) => self.elements(slot),
            None => Elements::none(),
        }
    }

    /// How many slots there are.
    pub fn len(&self) -> usize
        ensures { result ≡ slot_count self.now }
    {
        self.table.count(SLOT_LENGTH)
    }

    /// The slot at a place, unless it is empty.
    pub fn slot(&self, place: usize) -> Option<Slot>
        requires { place < slot_count self.now }
        ensures { result ≡ slot_in (item 8 (table_of self.now) place).rest }
    {
        Slot::read(self.table.item(SLOT_LENGTH, place).bytes)
    }

    // The name of a slot. `open` has seen that it has an end.
    fn name(&self, slot: Slot) -> &'a [u8]
        ensures { result.now ≡ name_in self.now.pool.now slot.name }
    {
        string_at(self.pool, slot.name).unwrap_or(&[])
    }

    // The elements of a slot. `open` has seen that they lie in the pool.
    fn elements(&self, slot: Slot) -> Elements<'a>
        ensures { result ≡ elements_in self.now.pool.now slot.vector }
    {
        match Elements::read(self.pool, slot.vector) {
            Some(elements) => elements,
            None => Elements::none(),
        }
    }

    // Whether the slot at a place isn't empty and has another name.
    fn is_other(&self, place: usize, name: &[u8]) -> bool
        requires { place < slot_count self.now }
        ensures { result ≡ is_other name.now (slot_or_none (slots_seen self.now) place) }
    {
        match self.slot(place) {
            Some(slot) => !self.has_name(slot, name),
            None => false,
        }
    }

    // Whether this is the name of a slot. Its end isn't sought: many names may be ends of one long text.
    fn has_name(&self, slot: Slot, name: &[u8]) -> bool
        ensures { result ≡ bytes_eq (name_in self.now.pool.now slot.name) name.now }
    {
        if name.is_empty() {
            return self.name(slot).is_empty();
        }
        let Some(rest) = self.pool.get(slot.name as usize..) else {
            return false;
        };
        is_text(rest, name)
    }

    // Where the path of a name ends: at the first slot that is empty or has the name.
    fn path_end(&self, name: &[u8]) -> Option<usize>
        ensures value { result ≡ path_end (slots_seen self.now) name.now }
        ensures within { IfSome result (λ k. k < slot_count self.now) }
    {
        let slots = self.len();
        if slots == 0 {
            return None;
        }
        let mut path = Path::new(name, slots);
        for _steps in 0..slots {
            if !self.is_other(path.place, name) {
                return Some(path.place);
            }
            path.advance();
        }
        None
    }

    // Whether the path of its name leads to the slot at a place, if it isn't empty. That needn't be asked of those that were found.
    fn is_found(
        &self,
        found: &FoundSlots,
        place: usize,
        limit: &mut ReadingLimit,
    ) -> Result<bool, NoMemory>
        requires size { is_table_size (slot_count self.now) ≡ true }
        requires place { place < slot_count self.now }
        requires found { AreFound (slots_seen self.now) found.now.places.items }
        requires homes { AreHomesOf (slots_seen self.now) found.now.homes.items }
        ensures { IfOk result (λ is. is ≡ is_reached (slots_seen self.now) place) }
    {
        if found.has(place) {
            return Ok(true);
        }
        let Some(slot) = self.slot(place) else {
            return Ok(true);
        };
        let end = self.short_path_end(found, self.name(slot), found.print(place), limit)?;
        Ok(end == Some(place))
    }

    // Where the path of a name ends, as long as no more bytes are gone over than a limit allows. Its print is told, if it is known.
    fn short_path_end(
        &self,
        found: &FoundSlots,
        name: &[u8],
        print: Option<u64>,
        limit: &mut ReadingLimit,
    ) -> Result<Option<usize>, NoMemory>
        requires homes { AreHomesOf (slots_seen self.now) found.now.homes.items }
        requires print { IfSome print (λ p. p ≡ print_of name.now) }
        ensures { IfOk result (λ k. k ≡ path_end (slots_seen self.now) name.now) }
    {
        let slots = self.len();
        if slots == 0 {
            return Ok(None);
        }
        let mut path = Path::new(name, slots);
        for _steps in 0..slots {
            let is_told = is_another(found.print(path.place), print);
            limit.take(self.cost(name, is_told)).ok_or(NoMemory)?;
            if !self.is_other_if(is_told, path.place, name) {
                return Ok(Some(path.place));
            }
            path.advance();
        }
        Ok(None)
    }

    // Whether the slot at a place isn't empty and has another name, which its print may have told already.
    fn is_other_if(&self, is_told: bool, place: usize, name: &[u8]) -> bool
        requires place { place < slot_count self.now }
        requires told { is_told ≡ true → is_other name.now (slot_or_none (slots_seen self.now) place) ≡ true }
        ensures { result ≡ is_other name.now (slot_or_none (slots_seen self.now) place) }
    {
        is_told || self.is_other(place, name)
    }

    // How many bytes are gone over where a slot is passed, whose name has to be compared unless its print tells it from this one.
    fn cost(&self, name: &[u8], is_told: bool) -> u64 {
        let compared = if is_told {
            0
        } else if name.is_empty() {
            self.pool.len()
        } else {
            name.len()
        };
        (SLOT_LENGTH as u64).saturating_add(compared as u64)
    }

    // Whether the path of its name leads to the slot at a place, if it isn't empty.
    fn is_reached(&self, place: usize) -> bool
        requires size { is_table_size (slot_count self.now) ≡ true }
        requires place { place < slot_count self.now }
        ensures { result ≡ is_reached (slots_seen self.now) place }
    {
        match self.slot(place) {
            Some(slot) => self.path_end(self.name(slot)) == Some(place),
            None => true,
        }
    }
}

// Whether these are the prints of two names, which are known. Then the names differ.
fn is_another(print: Option<u64>, own: Option<u64>) -> bool
    ensures { result ≡ true → (m : ℕ) × (n : ℕ) × (print ≡ Some m) × (own ≡ Some n) × (m ≡ n → ⊥) }
{
    match (print, own) {
        (Some(print), Some(own)) => print != own,
        (None, _) | (_, None) => false,
    }
}
