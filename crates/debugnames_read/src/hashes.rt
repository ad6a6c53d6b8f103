//! The hashes of names, taken in one pass over their strings.

ghost use Rattle.std.specs.Prelude.{◌≡◌, ◌-◌, ◌<◌, ℕ, List, Some, None, IfSome, length, slice_index, slice_index_or};
ghost use Rattle.index_model.specs.Layout.{nth};
ghost use Rattle.index_model.specs.NameIndexRead.{has_hash};
ghost use Rattle.debugnames_read.specs.Hashed.{IsHashOfName};
ghost use Rattle.debugnames_read.specs.Names.{string_at, tables_of};

use crate::names::IndexTables;
use std::alloc::Global;
use string_ends::{Formula, Hashed, hashes_of};

/// What is known of the name with this number.
pub(crate) fn hash_at(hashes: &[Option<Hashed>], number: usize) -> Option<Hashed>
    ensures { result ≡ slice_index_or hashes.now number None }
{
    hashes.get(number).copied().unwrap_or(None)
}

impl IndexTables<'_> {
    /// What is known of each name, of which some may be missing: all where names have no hashes or no memory is left.
    pub fn hashes(&self, alloc: Global) -> Vec<Option<Hashed>>
        ensures { (k : ℕ) → IsHashOfName self.now k (slice_index_or result.items k None) }
    {
        if self.tables.counts.buckets == 0 {
            return Vec::new(alloc);
        }
        match self.known_hashes(alloc) {
            Some(hashes) => hashes,
            None => Vec::new(alloc),
        }
    }

    // The same where names have hashes.
    fn known_hashes(&self, alloc: Global) -> Option<Vec<Option<Hashed>>>
        ensures { IfSome result (λ v. (k : ℕ) → IsHashOfName self.now k (slice_index_or v.items k None)) }
    {
        let offsets = self.offsets(alloc)?;
        hashes_of(alloc, Formula::NameIndex, self.strings, &offsets)
    }

    // Where the string of each name begins. One that begins before the section has no string, wherever it is said to begin.
    fn offsets(&self, alloc: Global) -> Option<Vec<u64>>
        ensures size { IfSome result (λ v. length v.items ≡ (tables_of self.now).counts.names) }
        ensures each { IfSome result (λ v. (k : ℕ) → k < (tables_of self.now).counts.names → slice_index v.items k ≡ nth (tables_of self.now).strings.numbers k - self.now.base) }
    {
        let mut offsets = Vec::with_capacity(alloc, self.len()).ok()?;
        for number in 0..self.len() {
            let offset = self.tables.strings.get(number).saturating_sub(self.base);
            let Ok(()) = offsets.push(offset) else {
                return None;
            };
        }
        Some(offsets)
    }

    /// Whether a name has its hash, which is taken now where nothing is known of it.
    pub fn has_hash(&self, number: usize, known: Option<Hashed>) -> bool
        requires some { 0 < (tables_of self.now).counts.buckets }
        requires within { number < (tables_of self.now).counts.names }
        requires known { IsHashOfName self.now number known }
        ensures { (name : List ℕ) → string_at (tables_of self.now) self.now.strings.now self.now.base number ≡ Some name → result ≡ has_hash name (nth (tables_of self.now).hashes.numbers number) }
    {
        match known {
            Some(known) => known.is_beyond_ascii || self.tables.has_number(number, known.hash),
            None => self.has_own_hash(number),
        }
    }

    // The same where nothing is known.
    fn has_own_hash(&self, number: usize) -> bool
        requires some { 0 < (tables_of self.now).counts.buckets }
        requires within { number < (tables_of self.now).counts.names }
        ensures { (name : List ℕ) → string_at (tables_of self.now) self.now.strings.now self.now.base number ≡ Some name → result ≡ has_hash name (nth (tables_of self.now).hashes.numbers number) }
    {
        match self.string(number) {
            Some(name) => self.tables.has_hash(number, name),
            None => false,
        }
    }
}
