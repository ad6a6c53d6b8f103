//! The entries of a unit.

ghost use Rattle.std.specs.Prelude.{◌≡◌, ◌<◌, ◌++◌, flat_map, length, List, OnOk, Some};
ghost use Rattle.std.specs.List.{AllZip};
ghost use Rattle.index_model.specs.Program.{Located, Walked};
ghost use Rattle.gdb_items.specs.Readings.{reading_of};
ghost use Rattle.gdb_entries.specs.Files.{ForProgram};
ghost use Rattle.gdb_scopes.specs.Places.{ForUnit};
ghost use Rattle.gdb_index.specs.Items.{listed_of_item, IsLookedAt};
ghost use Rattle.gdb_index.specs.Listed.{listed_of};

use crate::item::list_item;
use crate::names::FileNames;
use gdb_items::Reading;
use gdb_scopes::SeenItem;
use index_model::Entry;
use ix_base::NoMemory;
use std::alloc::Global;

/// Adds the entries of the unit with this number, as an index lists them, in the order of its items: each name of an item under each
/// kind of its tag. A unit that isn't read has none.
///
/// # Errors
///
/// `NoMemory` where memory was refused.
pub fn list_unit<'f>(
    alloc: Global,
    names: &mut FileNames<'_, '_, 'f>,
    unit: u32,
    reading: Option<Reading>,
    entries: &mut Vec<Entry<'f>>,
) -> Result<(), NoMemory>
    requires unit { unit < length names.old.units }
    requires reading { ForUnit names.old.file unit (λ p w. reading ≡ reading_of p w) }
    ensures value { ForUnit names.old.file unit (λ p w. OnOk result (entries.new.items ≡ entries.old.items ++ listed_of p w)) }
    ensures kept { names.new ≡ names.old }
{
    match reading {
        Some(reading) => list_read(alloc, names, unit, reading, entries),
        None => Ok(()),
    }
}

// The same, where the unit is read so.
fn list_read<'f>(
    alloc: Global,
    names: &mut FileNames<'_, '_, 'f>,
    unit: u32,
    reading: Reading,
    entries: &mut Vec<Entry<'f>>,
) -> Result<(), NoMemory>
    requires unit { unit < length names.old.units }
    requires reading { ForUnit names.old.file unit (λ p w. reading_of p w ≡ Some reading) }
    ensures value { ForUnit names.old.file unit (λ p w. OnOk result (entries.new.items ≡ entries.old.items ++ listed_of p w)) }
    ensures kept { names.new ≡ names.old }
{
    let seen = names.seen(alloc, unit)?;
    list_items(alloc, names, reading, seen.as_slice(), entries)
}

// Adds the entries of items of a unit that is read so, all of which are looked at.
fn list_items<'f>(
    alloc: Global,
    names: &mut FileNames<'_, '_, 'f>,
    reading: Reading,
    items: &[SeenItem<'f>],
    entries: &mut Vec<Entry<'f>>,
) -> Result<(), NoMemory>
    ensures value { ForProgram names.old.file (λ p. (owner : Walked) (ds : List Located) → reading.owner ≡ owner.number → AllZip (IsLookedAt p reading.class) items.now ds → OnOk result (entries.new.items ≡ entries.old.items ++ flat_map (listed_of_item p owner reading.class) ds)) }
    ensures kept { names.new ≡ names.old }
{
    for item in items {
        list_item(alloc, names, reading, item, entries)?;
    }
    Ok(())
}
