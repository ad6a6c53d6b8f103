//! A unit that was gone over.

ghost use Rattle.std.specs.Prelude.{◌≡◌, ◌==◌, find, filter, map, IfOk, List, Some};
ghost use Rattle.std.specs.List.{AllZip};
ghost use Rattle.std.specs.List.Sorted.{IsNonDecreasingBy};
ghost use Rattle.index_model.specs.Program.{Located, Program};
ghost use Rattle.gdb_entries.specs.Reached.{is_seen};
ghost use Rattle.gdb_entries.specs.declared.language.LanguageClass.{LanguageClass as Class};
ghost use Rattle.gdb_items.specs.Items.{IsItemOf};
ghost use Rattle.gdb_items.specs.Read.{items_in};
ghost use Rattle.gdb_scopes.specs.Places.{place_of, IsSeenIn};

use crate::place::{Place, place_at};
use crate::seen::SeenItem;
use gdb_items::{ReadUnit, UnitItem};
use ix_base::NoMemory;
use std::alloc::Global;

/// What was read of a unit, and the place of each of its items.
#[derive(Drop)]
pub(crate) struct UnitPlaces<'f> {
    pub read: ReadUnit<'f>,
    pub places: Vec<Place>,
}

impl<'f> UnitPlaces<'f> {
    /// The place of the item at a joint offset, among places whose offsets rise.
    pub fn at(&self, offset: u64) -> Option<Place>
        ensures { IsNonDecreasingBy (λ x. x.offset) self.now.places.items → result ≡ find (λ x. x.offset == offset) self.now.places.items }
    {
        place_at(self.places.as_slice(), offset)
    }

    /// The items that gdb looks at, in section order.
    pub fn seen(&self, alloc: Global) -> Result<Vec<SeenItem<'f>>, NoMemory>
        ensures { (p : Program) (class : Class) (ds : List Located) → AllZip (IsItemOf p.sections) (items_in self.now.read) ds → self.now.places.items ≡ map (place_of p class) ds → IfOk result (λ seen. AllZip (IsSeenIn p (Some class)) seen.items (filter (is_seen p class) ds)) }
    {
        seen_of(alloc, self.read.items.as_slice(), self.places.as_slice())
    }
}

// Those of the items that gdb looks at by their places.
fn seen_of<'f>(
    alloc: Global,
    items: &[UnitItem<'f>],
    places: &[Place],
) -> Result<Vec<SeenItem<'f>>, NoMemory>
    ensures { (p : Program) (class : Class) (ds : List Located) → AllZip (IsItemOf p.sections) items.now ds → places.now ≡ map (place_of p class) ds → IfOk result (λ seen. AllZip (IsSeenIn p (Some class)) seen.items (filter (is_seen p class) ds)) }
{
    let mut seen = Vec::new(alloc);
    for (item, place) in items.iter().zip(places) {
        if place.is_seen {
            seen.push(SeenItem {
                item: *item,
                around: place.around,
            })?;
        }
    }
    Ok(seen)
}
