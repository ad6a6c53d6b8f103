//! What is told of the items whose names are formed.

ghost use Rattle.std.specs.Prelude.{◌≡◌, ◌<◌, length, option_map, IfOk, Some};
ghost use Rattle.std.specs.List.{AllZip};
ghost use Rattle.index_model.specs.Program.{Located, item_with_offset};
ghost use Rattle.gdb_entries.specs.Chains.{linkage_of};
ghost use Rattle.gdb_entries.specs.Entries.{is_item_static};
ghost use Rattle.gdb_entries.specs.Owners.{class_read};
ghost use Rattle.gdb_entries.specs.Scopes.{scope_of};
ghost use Rattle.gdb_items.specs.Chains.{IsChainOf};
ghost use Rattle.gdb_entries.specs.Files.{ForProgram};
ghost use Rattle.gdb_items.specs.Files.{IsItemIn};
ghost use Rattle.gdb_items.specs.Items.{IsItemOf};
ghost use Rattle.gdb_scopes.specs.Places.{offset_of, seen_of, ForItem, ForUnit, IsSeenIn};

use crate::names::FileNames;
use gdb_entries::LanguageClass;
use gdb_items::{Chain, UnitItem};
use gdb_scopes::SeenItem;
use ix_base::NoMemory;
use std::alloc::Global;

impl<'s, 'r, 'f> FileNames<'s, 'r, 'f> {
    /// The items of a unit that gdb looks at, in section order. In a unit that isn't read there is none.
    pub fn seen(&mut self, alloc: Global, unit: u32) -> Result<Vec<SeenItem<'f>>, NoMemory>
        requires { unit < length self.old.units }
        ensures value { ForUnit self.old.file unit (λ p w. IfOk result (λ seen. AllZip (IsSeenIn p (class_read p w)) seen.items (seen_of p w))) }
        ensures kept { self.new ≡ self.old }
    {
        self.places.seen(alloc, unit)
    }

    /// The item at a joint offset, of any unit. None where none begins there.
    pub fn at(&mut self, alloc: Global, offset: u64) -> Result<Option<UnitItem<'f>>, NoMemory>
        ensures value { ForProgram self.old.file (λ p. IfOk result (λ i. IsItemIn p.sections i (item_with_offset p offset))) }
        ensures kept { self.new ≡ self.old }
    {
        self.places.at(alloc, offset)
    }

    /// What the chain of an item of the file gives. A reference that names nothing ends it, and of a declaration that gives scope alone
    /// nothing is followed.
    pub fn chain(&mut self, alloc: Global, item: &UnitItem<'f>) -> Result<Chain<'f>, NoMemory>
        ensures value { ForProgram self.old.file (λ p. (d : Located) → IsItemOf p.sections item.now d → IfOk result (IsChainOf p d)) }
        ensures kept { self.new ≡ self.old }
    {
        self.places.chain(alloc, item)
    }

    /// The first linkage name on the chain of an item of the file, borrowed from the file.
    pub fn linkage_name(
        &mut self,
        alloc: Global,
        item: &UnitItem<'f>,
    ) -> Result<Option<&'f [u8]>, NoMemory>
        ensures value { ForProgram self.old.file (λ p. (d : Located) → IsItemOf p.sections item.now d → IfOk result (λ text. option_map (λ b. b.now) text ≡ linkage_of p d)) }
        ensures kept { self.new ≡ self.old }
    {
        self.places.linkage_name(alloc, item)
    }

    /// The class by which the unit is read in which the item at a joint offset stands. None where the unit isn't read.
    pub fn class_at(&self, offset: u64) -> Option<LanguageClass>
        ensures { ForItem self.now.file offset (λ p d. result ≡ class_read p d.home) }
    {
        self.places.class_at(offset)
    }

    /// Whether the names of an item that is looked at in a unit of this class, and whose chain this is, are static: they count in its unit
    /// alone. Those of an entry point are as those of its subprogram.
    pub fn is_static(
        &mut self,
        alloc: Global,
        class: LanguageClass,
        item: &UnitItem<'f>,
        chain: &Chain<'f>,
    ) -> Result<bool, NoMemory>
        ensures value { ForItem self.old.file item.now.offset (λ p d. IsItemOf p.sections item.now d → class_read p d.home ≡ Some class → IsChainOf p d chain.now → IfOk result (λ is. is ≡ is_item_static p class d)) }
        ensures kept { self.new ≡ self.old }
    {
        self.places.is_static(alloc, class, item, chain)
    }

    /// The scope of an item that is looked at in a unit of this class, and whose chain this is: the joint offset of the open item that its
    /// name stands behind, if there is one.
    pub(crate) fn scope_of(
        &mut self,
        alloc: Global,
        class: LanguageClass,
        seen: &SeenItem<'f>,
        chain: &Chain<'f>,
    ) -> Result<Option<u64>, NoMemory>
        ensures value { ForItem self.old.file seen.now.item.offset (λ p d. IsSeenIn p (Some class) seen.now d → class_read p d.home ≡ Some class → IsChainOf p d chain.now → IfOk result (λ scope. scope ≡ option_map offset_of (scope_of p d))) }
        ensures kept { self.new ≡ self.old }
    {
        self.places.scope_of(alloc, class, seen, chain)
    }
}
