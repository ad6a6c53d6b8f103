//! What the entries of the index are made of (DWARF 5, section 6.1.1.1).

ghost use Rattle.std.specs.Prelude.{◌≡◌, ◌<◌, ◌++◌, length, map, option_map, All, sum_by, IfOk, OnOk};
ghost use Rattle.index_model.specs.Answers.{entries_at};
ghost use Rattle.index_model.specs.NameIndex.{all_indexed, indexed_entry};
ghost use Rattle.debugnames_write.specs.Conditions.{IsInside};
ghost use Rattle.debugnames_write.specs.Seen.{item_seen, items_seen, nameless};
ghost use Rattle.debugnames_write.specs.Units.{ArePlacesOf};

use crate::item::{IndexEntry, Row};
use crate::units::{UnitPlaces, is_type_unit};
use index_model::{Entry, Part, Unit};
use std::alloc::AllocError;

/// The entries of a table, their units, and where these stand in their lists.
#[derive(Clone, Copy)]
pub(crate) struct Source<'t, 'f> {
    pub units: &'t [Unit],
    pub places: &'t UnitPlaces,
    pub entries: &'t [Entry<'f>],
    ghost placed: { ArePlacesOf units.now places.now },
    ghost short: { sum_by (λ u. u.length) units.now < 4294967296 },
}

impl Source<'_, '_> {
    /// Appends the entries at these places, without those of units of `.debug_types`. Gives how many.
    pub fn push_items(
        &self,
        items: &mut Vec<IndexEntry>,
        places: &[u32],
    ) -> Result<usize, AllocError>
        requires inside { All (IsInside self.now.units.now) self.now.entries.now }
        requires within { All (λ p. p < length self.now.entries.now) places.now }
        ensures items { OnOk result (items_seen items.new.items ≡ items_seen items.old.items ++ map nameless (all_indexed self.now.units.now (entries_at self.now.entries.now places.now))) }
        ensures count { IfOk result (λ n. n ≡ length (all_indexed self.now.units.now (entries_at self.now.entries.now places.now))) }
    {
        let before = items.len();
        for place in places {
            if let Some(item) = self.item_of(&self.entries[*place as usize]) {
                items.push(item)?;
            }
        }
        Ok(items.len() - before)
    }

    // The entry as the index has it; None where its unit stands in `.debug_types`.
    fn item_of(&self, entry: &Entry<'_>) -> Option<IndexEntry>
        requires { IsInside self.now.units.now entry.now }
        ensures { option_map item_seen result ≡ option_map nameless (indexed_entry self.now.units.now entry.now) }
    {
        let unit = &self.units[entry.unit as usize];
        match unit.part {
            Part::Types => None,
            Part::Info => Some(IndexEntry {
                row: Row {
                    tag: entry.tag,
                    types: is_type_unit(unit),
                },
                unit: self.places.at(entry.unit),
                offset: (entry.offset - unit.start) as u32,
            }),
        }
    }
}
