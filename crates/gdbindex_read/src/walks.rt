//! Which slots their names lead to, path by path.
//!
//! Names with one begin share a path, so that a path that were followed for each of them would cost as much as all its slots, as often
//! as it has names. Here each path is walked once, as far as its last name.

ghost use Rattle.std.specs.Prelude.{◌≡◌, ◌⊎◌, ◌<◌, ◌^◌, ℕ, [], IfSome, IsTrue, List, Option, true, false, length, slice_index_or};
ghost use Rattle.std.specs.BTreeSet.{contains};
ghost use Rattle.std.specs.Ordering.{nat_cmp};
ghost use Rattle.index_model.specs.GdbIndexRead.{Slot, is_table_size};
ghost use Rattle.gdbindex_read.specs.Homes.{AreFound, AreHomes, AreHomesOf, IsPrintAt};
ghost use Rattle.gdbindex_read.specs.Slots.{slot_count, slots_seen};

use crate::homes::PathStart;
use crate::path::Path;
use crate::slots::SLOT_LENGTH;
use crate::symbols::SymbolTable;
use reading_limit::ReadingLimit;
use std::alloc::Global;
use std::collections::BTreeSet;

/// The slots that were found by their names.
#[derive(Drop)]
pub(crate) struct FoundSlots {
    places: Vec<bool>,
    // The prints of their names.
    prints: BTreeSet<u64>,
    // What is known of the names of all slots.
    homes: Vec<Option<PathStart>>,
}

impl FoundSlots {
    /// The slots of a table that are found on the paths of their names. None are where no memory is left, and no more than were before so
    /// many bytes of slots were passed.
    pub fn of(alloc: Global, table: &SymbolTable<'_>, limit: &mut ReadingLimit) -> FoundSlots
        requires size { is_table_size (slot_count table.now) ≡ true }
        requires few { slot_count table.now < 2 ^ 32 }
        ensures found { AreFound (slots_seen table.now) result.places.items }
        ensures homes { AreHomesOf (slots_seen table.now) result.homes.items }
    {
        let mut found = FoundSlots::none(alloc, table.len());
        if let Some(homes) = table.homes(alloc) {
            found.walk_all(alloc, &homes, limit);
            found.homes = homes;
        }
        found
    }

    // None of so many slots.
    fn none(alloc: Global, slots: usize) -> FoundSlots
        ensures places { (k : ℕ) → slice_index_or result.places.items k false ≡ true → ⊥ }
        ensures homes { result.homes.items ≡ [] }
    {
        FoundSlots {
            places: vec![in alloc; false; slots].unwrap_or(Vec::new(alloc)),
            prints: BTreeSet::new(alloc),
            homes: Vec::new(alloc),
        }
    }

    /// Whether a slot is among them.
    pub fn has(&self, place: usize) -> bool
        ensures { result ≡ slice_index_or self.now.places.items place false }
    {
        self.places.get(place).copied().unwrap_or(false)
    }

    /// The print of a slot's name, where it is known.
    pub fn print(&self, place: usize) -> Option<u64>
        ensures { (slots : List (Option Slot)) → AreHomesOf slots self.now.homes.items → IfSome result (IsPrintAt slots place) }
    {
        match self.homes.get(place) {
            Some(Some(home)) => Some(home.print),
            _ => None,
        }
    }

    // Walks along the paths that names have.
    fn walk_all(&mut self, alloc: Global, homes: &[Option<PathStart>], limit: &mut ReadingLimit)
        requires { length homes.now < 2 ^ 32 }
        ensures { (slots : List (Option Slot)) → AreHomes slots homes.now → is_table_size (length slots) ≡ true → AreFound slots self.old.places.items → AreFound slots self.new.places.items }
    {
        let Some(names) = name_counts(alloc, homes) else {
            return;
        };
        for begin in 0..names.len() {
            if 0 < names[begin] {
                self.walk(homes, begin, names[begin], limit);
            }
        }
    }

    // Walks along the path of so many names. It ends where one is missing.
    fn walk(
        &mut self,
        homes: &[Option<PathStart>],
        begin: usize,
        names: u32,
        limit: &mut ReadingLimit,
    )
        requires few { length homes.now < 2 ^ 32 }
        requires begin { begin < length homes.now }
        ensures { (slots : List (Option Slot)) → AreHomes slots homes.now → is_table_size (length slots) ≡ true → AreFound slots self.old.places.items → AreFound slots self.new.places.items }
    {
        let mut path = Path::of_hash(begin, homes.len());
        let mut left = names;
        for _steps in 0..homes.len() {
            if limit.take(SLOT_LENGTH as u64).is_none() {
                return;
            }
            let Some(home) = homes[path.place] else {
                return;
            };
            if home.begin == begin {
                if left == 0 || !self.add(path.place, home.print) {
                    return;
                }
                left -= 1;
            }
            path.advance();
        }
    }

    // Adds a slot, unless the print of its name is that of one before it. Whether the print is kept.
    fn add(&mut self, place: usize, print: u64) -> bool
        ensures kept { (n : ℕ) → contains nat_cmp self.old.prints n ≡ true → contains nat_cmp self.new.prints n ≡ true }
        ensures added { IsTrue result → contains nat_cmp self.new.prints print ≡ true }
        ensures places { (k : ℕ) → slice_index_or self.new.places.items k false ≡ true → (slice_index_or self.old.places.items k false ≡ true) ⊎ (k ≡ place) × (contains nat_cmp self.old.prints print ≡ false) }
    {
        match self.prints.insert(print) {
            Ok(is_new) => {
                self.mark(place, is_new);
                true
            }
            Err(_) => false,
        }
    }

    // Marks a slot, if it is to be marked.
    fn mark(&mut self, place: usize, is_new: bool)
        ensures places { (k : ℕ) → slice_index_or self.new.places.items k false ≡ true → (slice_index_or self.old.places.items k false ≡ true) ⊎ (k ≡ place) × IsTrue is_new }
        ensures prints { self.new.prints ≡ self.old.prints }
    {
        if is_new && place < self.places.len() {
            self.places[place] = true;
        }
    }
}

// How many names have the path that begins with each slot.
fn name_counts(alloc: Global, homes: &[Option<PathStart>]) -> Option<Vec<u32>>
    ensures { IfSome result (λ v. length v.items ≡ length homes.now) }
{
    let mut counts = vec![in alloc; 0u32; homes.len()].ok()?;
    for place in 0..homes.len() {
        let begin = homes[place].map_or(usize::MAX, |home| home.begin);
        if begin < counts.len() {
            counts[begin] = counts[begin].saturating_add(1);
        }
    }
    Some(counts)
}
