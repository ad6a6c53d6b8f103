//! Which names are static (gdb/dwarf2/read.c, `scan_attributes`).

ghost use Rattle.std.specs.Prelude.{◌≡◌, IfOk, Some};
ghost use Rattle.index_model.specs.Program.{Located};
ghost use Rattle.gdb_entries.specs.Entries.{is_item_static, is_static_around, is_static_itself};
ghost use Rattle.gdb_entries.specs.Owners.{class_read};
ghost use Rattle.gdb_entries.specs.Scopes.{around_by};
ghost use Rattle.gdb_entries.specs.Files.{ForProgram};
ghost use Rattle.gdb_items.specs.Chains.{IsChainOf};
ghost use Rattle.gdb_items.specs.Items.{IsItemOf};
ghost use Rattle.gdb_scopes.specs.Places.{ForItem};

use crate::file::FilePlaces;
use gdb_entries::{DW_TAG_entry_point, LanguageClass, is_static};
use gdb_items::{Chain, UnitItem};
use ix_base::NoMemory;
use std::alloc::Global;

impl<'s, 'r, 'f> FilePlaces<'s, 'r, 'f> {
    /// Whether the names of an item that is looked at in a unit of this class, and whose chain this is, are static: they count in its unit
    /// alone. Those of an entry point are as those of its subprogram.
    pub fn is_static(
        &mut self,
        alloc: Global,
        class: LanguageClass,
        item: &UnitItem<'f>,
        chain: &Chain<'f>,
    ) -> Result<bool, NoMemory>
        ensures value { ForItem self.old.file item.now.offset (λ p d. IsItemOf p.sections item.now d → class_read p d.home ≡ Some class → IsChainOf p d chain.now → IfOk result (λ is. is ≡ is_item_static p class d)) }
        ensures kept { self.new ≡ self.old }
    {
        if item.facts.tag == DW_TAG_entry_point {
            return self.is_static_around(alloc, class, item.offset);
        }
        Ok(is_static(class, item.facts.tag, chain.external))
    }

    // Whether those of the open item around the item at a joint offset are, in a unit of this class.
    fn is_static_around(
        &mut self,
        alloc: Global,
        class: LanguageClass,
        offset: u64,
    ) -> Result<bool, NoMemory>
        ensures value { ForItem self.old.file offset (λ p d. class_read p d.home ≡ Some class → IfOk result (λ is. is ≡ is_static_around p class (around_by p (Some class) d))) }
        ensures kept { self.new ≡ self.old }
    {
        let Some(around) = self.around(alloc, offset)? else {
            return Ok(false);
        };
        match self.at(alloc, around)? {
            Some(item) => self.is_static_itself(alloc, class, &item),
            None => Ok(false),
        }
    }

    // Whether those of an item are by its own chain, in a unit of this class.
    fn is_static_itself(
        &mut self,
        alloc: Global,
        class: LanguageClass,
        item: &UnitItem<'f>,
    ) -> Result<bool, NoMemory>
        ensures value { ForProgram self.old.file (λ p. (d : Located) → IsItemOf p.sections item.now d → IfOk result (λ is. is ≡ is_static_itself p class d)) }
        ensures kept { self.new ≡ self.old }
    {
        let chain = self.chain(alloc, item)?;
        Ok(is_static(class, item.facts.tag, chain.external))
    }
}
