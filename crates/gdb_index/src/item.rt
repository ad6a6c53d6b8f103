//! The entries of an item.

ghost use Rattle.std.specs.Prelude.{◌≡◌, ◌++◌, OnOk};
ghost use Rattle.index_model.specs.Program.{Located, Walked};
ghost use Rattle.gdb_entries.specs.Files.{ForProgram};
ghost use Rattle.gdb_index.specs.Items.{listed_of_item, IsLookedAt};

use crate::entries::ItemEntries;
use crate::item_names::listed_names;
use crate::names::FileNames;
use gdb_entries::kinds_of;
use gdb_items::Reading;
use gdb_scopes::SeenItem;
use index_model::Entry;
use ix_base::NoMemory;
use std::alloc::Global;

/// Adds the entries of an item that is looked at in a unit that is read so. One whose tag isn't listed has none.
pub(crate) fn list_item<'f>(
    alloc: Global,
    names: &mut FileNames<'_, '_, 'f>,
    reading: Reading,
    seen: &SeenItem<'f>,
    entries: &mut Vec<Entry<'f>>,
) -> Result<(), NoMemory>
    ensures value { ForProgram names.old.file (λ p. (owner : Walked) (d : Located) → reading.owner ≡ owner.number → IsLookedAt p reading.class seen.now d → OnOk result (entries.new.items ≡ entries.old.items ++ listed_of_item p owner reading.class d)) }
    ensures kept { names.new ≡ names.old }
{
    let item = &seen.item;
    let Some(kinds) = kinds_of(item.facts.tag) else {
        return Ok(());
    };
    let chain = names.chain(alloc, item)?;
    let local = names.is_static(alloc, reading.class, item, &chain)?;
    let listed = listed_names(alloc, names, reading.class, seen, &chain)?;
    names.count_formed(listed.formed())?;
    let common = ItemEntries {
        unit: reading.owner,
        offset: item.offset,
        // A tag that is listed has less than 16 bits.
        tag: item.facts.tag as u16,
        local,
        kinds,
    };
    common.add_names(alloc, listed, entries)
}
