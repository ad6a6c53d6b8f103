//! The scopes of items (gdb/dwarf2/read.c, `scan_attributes` and `recurse`; parent-map.h).

ghost use Rattle.std.specs.Prelude.{◌≡◌, filter_map, not, option_and_then, option_map, IfOk, List, Some};
ghost use Rattle.std.specs.List.{AllZip};
ghost use Rattle.index_model.specs.Chains.{first};
ghost use Rattle.index_model.specs.Program.{Located};
ghost use Rattle.gdb_entries.specs.Classes.{is_c};
ghost use Rattle.gdb_entries.specs.Owners.{class_read};
ghost use Rattle.gdb_entries.specs.Scopes.{around_by, around_target, open_around, scope_in_place, scope_of};
ghost use Rattle.gdb_entries.specs.Files.{ForProgram};
ghost use Rattle.gdb_items.specs.Chains.{IsChainOf};
ghost use Rattle.gdb_items.specs.Items.{IsItemOf};
ghost use Rattle.gdb_scopes.specs.Places.{offset_of, ForItem, IsAt, IsSeenIn};

use crate::file::FilePlaces;
use crate::seen::SeenItem;
use gdb_entries::{DW_TAG_entry_point, LanguageClass};
use gdb_items::{Chain, UnitItem};
use ix_base::NoMemory;
use std::alloc::Global;

impl<'s, 'r, 'f> FilePlaces<'s, 'r, 'f> {
    /// The scope of the item at a joint offset: the joint offset of the open item that its name stands behind, if there is one. That is
    /// the open item around it, or else around a target of its chain; an entry point has the scope of its subprogram.
    pub fn scope(&mut self, alloc: Global, offset: u64) -> Result<Option<u64>, NoMemory>
        ensures value { ForItem self.old.file offset (λ p d. IfOk result (λ scope. scope ≡ option_map offset_of (scope_of p d))) }
        ensures kept { self.new ≡ self.old }
    {
        let Some(item) = self.at(alloc, offset)? else {
            return Ok(None);
        };
        if item.facts.tag == DW_TAG_entry_point {
            self.scope_of_entry_point(alloc, &item)
        } else {
            self.scope_in_place(alloc, &item)
        }
    }

    /// The same of an item that is looked at in a unit of this class, whose chain this is.
    pub fn scope_of(
        &mut self,
        alloc: Global,
        class: LanguageClass,
        seen: &SeenItem<'f>,
        chain: &Chain<'f>,
    ) -> Result<Option<u64>, NoMemory>
        ensures value { ForItem self.old.file seen.now.item.offset (λ p d. IsSeenIn p (Some class) seen.now d → class_read p d.home ≡ Some class → IsChainOf p d chain.now → IfOk result (λ scope. scope ≡ option_map offset_of (scope_of p d))) }
        ensures kept { self.new ≡ self.old }
    {
        if seen.item.facts.tag == DW_TAG_entry_point {
            return self.scope(alloc, seen.item.offset);
        }
        if seen.around.is_some() {
            return Ok(seen.around);
        }
        self.around_chain(alloc, class, chain)
    }

    // The scope of what stands around an entry point.
    fn scope_of_entry_point(
        &mut self,
        alloc: Global,
        item: &UnitItem<'f>,
    ) -> Result<Option<u64>, NoMemory>
        ensures value { ForItem self.old.file item.now.offset (λ p d. IsItemOf p.sections item.now d → IfOk result (λ scope. scope ≡ option_map offset_of (option_and_then (scope_in_place p) (scope_in_place p d)))) }
        ensures kept { self.new ≡ self.old }
    {
        let Some(around) = self.scope_in_place(alloc, item)? else {
            return Ok(None);
        };
        match self.at(alloc, around)? {
            Some(subprogram) => self.scope_in_place(alloc, &subprogram),
            None => Ok(None),
        }
    }

    // The open item around an item, or else around a target of its chain.
    fn scope_in_place(
        &mut self,
        alloc: Global,
        item: &UnitItem<'f>,
    ) -> Result<Option<u64>, NoMemory>
        ensures value { ForItem self.old.file item.now.offset (λ p d. IsItemOf p.sections item.now d → IfOk result (λ scope. scope ≡ option_map offset_of (scope_in_place p d))) }
        ensures kept { self.new ≡ self.old }
    {
        let around = self.around(alloc, item.offset)?;
        if around.is_some() {
            return Ok(around);
        }
        self.around_target(alloc, item)
    }

    // The open item around the first target of an item's chain that has one. In C it isn't sought.
    fn around_target(&mut self, alloc: Global, item: &UnitItem<'f>) -> Result<Option<u64>, NoMemory>
        ensures value { ForItem self.old.file item.now.offset (λ p d. IsItemOf p.sections item.now d → IfOk result (λ around. around ≡ option_map offset_of (around_target p (class_read p d.home) d))) }
        ensures kept { self.new ≡ self.old }
    {
        let Some(class) = self.class_at(item.offset) else {
            return Ok(None);
        };
        let chain = self.chain(alloc, item)?;
        self.around_chain(alloc, class, &chain)
    }

    // The same by the chain, in a unit of this class.
    fn around_chain(
        &mut self,
        alloc: Global,
        class: LanguageClass,
        chain: &Chain<'f>,
    ) -> Result<Option<u64>, NoMemory>
        ensures value { ForProgram self.old.file (λ p. (d : Located) → IsChainOf p d chain.now → IfOk result (λ around. around ≡ option_map offset_of (around_target p (Some class) d))) }
        ensures kept { self.new ≡ self.old }
    {
        if !names_have_scopes(class) {
            return Ok(None);
        }
        self.first_around(alloc, chain.targets.as_slice())
    }

    // The open item around the first of the items at these offsets that has one.
    fn first_around(&mut self, alloc: Global, offsets: &[u64]) -> Result<Option<u64>, NoMemory>
        ensures value { ForProgram self.old.file (λ p. (ds : List Located) → AllZip (IsAt p) offsets.now ds → IfOk result (λ around. around ≡ option_map offset_of (first (filter_map (open_around p) ds)))) }
        ensures kept { self.new ≡ self.old }
    {
        for offset in offsets {
            let around = self.open_around(alloc, *offset)?;
            if around.is_some() {
                return Ok(around);
            }
        }
        Ok(None)
    }

    /// The open item around the item at a joint offset, if gdb comes to it.
    pub(crate) fn around(&mut self, alloc: Global, offset: u64) -> Result<Option<u64>, NoMemory>
        ensures value { ForItem self.old.file offset (λ p d. IfOk result (λ around. around ≡ option_map offset_of (around_by p (class_read p d.home) d))) }
        ensures kept { self.new ≡ self.old }
    {
        match self.place(alloc, offset)? {
            Some(place) => Ok(place.around),
            None => Ok(None),
        }
    }

    // The same, whether or not gdb comes to it.
    fn open_around(&mut self, alloc: Global, offset: u64) -> Result<Option<u64>, NoMemory>
        ensures value { ForItem self.old.file offset (λ p d. IfOk result (λ around. around ≡ option_map offset_of (open_around p d))) }
        ensures kept { self.new ≡ self.old }
    {
        match self.place(alloc, offset)? {
            Some(place) => Ok(place.open_around),
            None => Ok(None),
        }
    }
}

// Whether a scope is sought on chains in a unit that is read by this class. In C names have no scopes.
fn names_have_scopes(class: LanguageClass) -> bool
    ensures { result ≡ not (is_c class) }
{
    class != LanguageClass::C
}
