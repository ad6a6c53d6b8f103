//! The entries of the index by their names.

ghost use Rattle.std.specs.Prelude.{◌≡◌, ◌<◌, ◌++◌, [], ◌∷◌, length, All, sum_by, IfOk, OnOk};
ghost use Rattle.index_model.specs.NameIndex.{all_indexed};
ghost use Rattle.query_engine.specs.Listed.{names_of};
ghost use Rattle.debugnames_write.specs.Conditions.{IsInside};
ghost use Rattle.debugnames_write.specs.Items.{AreItemsOf, ArePartOf, AreSortedItems, names_counted, some_counted};
ghost use Rattle.debugnames_write.specs.Units.{ArePlacesOf};

use crate::halves::items_by_halves;
use crate::item::IndexEntry;
use crate::part::ListedPart;
use crate::source::Source;
use crate::units::UnitPlaces;
use index_model::Unit;
use ix_base::NoMemory;
use query_engine::{ListedName, Table};
use std::alloc::{AllocError, Global};
use std::thread::Threads;

/// Names, each with how many entries it has, and the entries of one name after those of another.
#[derive(Drop)]
pub(crate) struct ListedItems<'t> {
    pub names: Vec<ListedName<'t>>,
    pub items: Vec<IndexEntry>,
}

/// The entries of units of `.debug_info` by their names, those of one name in section order. Threads share the work as they
/// did where the table was made.
pub(crate) fn sorted_items<'t, R: Threads + Sync>(
    rt: &R,
    alloc: Global,
    units: &[Unit],
    places: &UnitPlaces,
    table: &'t Table<'_>,
) -> Result<ListedItems<'t>, NoMemory>
    requires places { ArePlacesOf units.now places.now }
    requires inside { All (IsInside units.now) table.now }
    requires short { sum_by (λ u. u.length) units.now < 4294967296 }
    ensures { IfOk result (λ l. AreSortedItems (all_indexed units.now table.now) l.items.items l.names.items) }
{
    let listed = table.names_as_listed(rt, alloc)?;
    let halvings = table.halvings();
    let source = Source {
        units,
        places,
        entries: table.entries(),
    };
    let part = ListedPart {
        names: &listed.names,
        places: &listed.places,
    };
    Ok(items_by_halves(rt, alloc, halvings, &source, part)?)
}

/// The entries of these names, without the names that have none.
pub(crate) fn items_of<'t>(
    alloc: Global,
    source: &Source<'_, '_>,
    part: ListedPart<'_, 't>,
) -> Result<ListedItems<'t>, AllocError>
    requires { ArePartOf source.now part }
    ensures { IfOk result (AreItemsOf (all_indexed source.now.units.now source.now.entries.now) (names_of part.entry.names.now)) }
{
    let mut listed = ListedItems {
        names: Vec::with_capacity(alloc, part.names.len())?,
        items: Vec::with_capacity(alloc, part.places.len())?,
    };
    let mut passed = 0;
    for name in part.names {
        let end = passed + name.count;
        let count = source.push_items(&mut listed.items, &part.places[passed..end])?;
        push_some(&mut listed.names, name.name, count)?;
        passed = end;
    }
    Ok(listed)
}

// Appends a name that has entries.
fn push_some<'t>(
    names: &mut Vec<ListedName<'t>>,
    name: &'t [u8],
    count: usize,
) -> Result<(), AllocError>
    ensures { OnOk result (names_counted names.new.items ≡ names_counted names.old.items ++ some_counted ((name.now, count) ∷ [])) }
{
    if count > 0 {
        names.push(ListedName { name, count })?;
    }
    Ok(())
}
