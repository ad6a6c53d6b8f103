//! The items of a file, as gdb comes to them.
//!
//! A unit is gone over once there is need of it: over what may be listed of it, and once more over all its items where an item is
//! asked for that isn't among these. A unit that isn't read has nothing that is looked at or open, and isn't gone over.

ghost use Rattle.std.specs.Prelude.{◌≡◌, ◌<◌, length, map, option_map, IfOk, Some};
ghost use Rattle.std.specs.Arc.{arc_value};
ghost use Rattle.std.specs.List.{AllZip};
ghost use Rattle.index_model.specs.Program.{Located, item_with_offset};
ghost use Rattle.shard_build.specs.Found.{IsUnitAt};
ghost use Rattle.gdb_entries.specs.Chains.{linkage_of};
ghost use Rattle.gdb_entries.specs.Owners.{class_read};
ghost use Rattle.gdb_items.specs.Readings.{reading_of};
ghost use Rattle.gdb_items.specs.Chains.{IsChainOf};
ghost use Rattle.gdb_entries.specs.Files.{ForProgram, HasProgram};
ghost use Rattle.gdb_items.specs.Files.{IsItemIn, IsReadOf};
ghost use Rattle.gdb_items.specs.Items.{IsItemOf};
ghost use Rattle.gdb_items.specs.declared.which.Which.TheVariants.{All};
ghost use Rattle.gdb_scopes.specs.Places.{place_of, seen_of, ForItem, ForUnit, IsSeenIn};
ghost use Rattle.gdb_scopes.specs.Units.{IsPlaced};

use crate::place::Place;
use crate::placed::UnitPlaces;
use crate::reading::reading_at;
use crate::seen::SeenItem;
use crate::unit::places_of;
use file_image::Image;
use gdb_entries::LanguageClass;
use gdb_items::{Chain, FileItems, ReadUnit, Reading, UnitItem, Which};
use indexmap::IndexMap;
use ix_base::NoMemory;
use std::alloc::Global;
use std::marker::Model;
use std::sync::Arc;

/// The items of a file without a fault, as gdb comes to them. Contracts see the image of the file.
#[derive(Drop)]
pub struct FilePlaces<'s, 'r, 'f> {
    readings: &'r [Option<Reading>],
    items: FileItems<'s, 'f>,
    // The units that were gone over, by their numbers.
    units: IndexMap<u32, Arc<UnitPlaces<'f>>>,
}

impl<'s, 'r, 'f> Model for FilePlaces<'s, 'r, 'f> {
    ghost use Rattle.file_image.specs.Images.{Image as ImageOf};
    ghost use Rattle.gdb_scopes.specs.Units.{AreReadingsOf, AllArePlaced};

    ghost Value = { ImageOf };

    ghost view = { λ e. e.items };

    ghost invariant = { λ e. AreReadingsOf e.items.file e.readings.now × AllArePlaced e.items.file e.units };
}

impl<'s, 'r, 'f> FilePlaces<'s, 'r, 'f> {
    /// The items of a file without a fault, before any unit is read. Of each unit it is told how gdb reads it.
    pub fn new(
        alloc: Global,
        image: &'s Image<'f>,
        readings: &'r [Option<Reading>],
    ) -> FilePlaces<'s, 'r, 'f>
        requires sound { HasProgram image.now.file }
        requires readings { ForProgram image.now.file (λ p. readings.now ≡ map (reading_of p) p.walks) }
        ensures { result ≡ image.now }
    {
        FilePlaces {
            readings,
            items: FileItems::new(alloc, image),
            units: IndexMap::new(alloc),
        }
    }

    /// The items of a unit that gdb looks at, in section order. In a unit that isn't read there is none.
    pub fn seen(&mut self, alloc: Global, unit: u32) -> Result<Vec<SeenItem<'f>>, NoMemory>
        requires { unit < length self.old.units }
        ensures value { ForUnit self.old.file unit (λ p w. IfOk result (λ seen. AllZip (IsSeenIn p (class_read p w)) seen.items (seen_of p w))) }
        ensures kept { self.new ≡ self.old }
    {
        match self.class_of(unit) {
            Some(class) => {
                let placed = self.placed(alloc, unit, class)?;
                placed.seen(alloc)
            }
            None => Ok(Vec::new(alloc)),
        }
    }

    /// The item at a joint offset, of any unit. None where none begins there.
    pub fn at(&mut self, alloc: Global, offset: u64) -> Result<Option<UnitItem<'f>>, NoMemory>
        ensures value { ForProgram self.old.file (λ p. IfOk result (λ i. IsItemIn p.sections i (item_with_offset p offset))) }
        ensures kept { self.new ≡ self.old }
    {
        self.items.at(alloc, offset)
    }

    /// What the chain of an item of the file gives. A reference that names nothing ends it, and of a declaration that gives scope alone
    /// nothing is followed.
    pub fn chain(&mut self, alloc: Global, item: &UnitItem<'f>) -> Result<Chain<'f>, NoMemory>
        ensures value { ForProgram self.old.file (λ p. (d : Located) → IsItemOf p.sections item.now d → IfOk result (IsChainOf p d)) }
        ensures kept { self.new ≡ self.old }
    {
        self.items.chain(alloc, item)
    }

    /// The first linkage name on the chain of an item of the file, borrowed from the file.
    pub fn linkage_name(
        &mut self,
        alloc: Global,
        item: &UnitItem<'f>,
    ) -> Result<Option<&'f [u8]>, NoMemory>
        ensures value { ForProgram self.old.file (λ p. (d : Located) → IsItemOf p.sections item.now d → IfOk result (λ text. option_map (λ b. b.now) text ≡ linkage_of p d)) }
        ensures kept { self.new ≡ self.old }
    {
        self.items.linkage_name(alloc, item)
    }

    /// The class by which the unit is read in which the item at a joint offset stands. None where the unit isn't read.
    pub fn class_at(&self, offset: u64) -> Option<LanguageClass>
        ensures { ForItem self.now.file offset (λ p d. result ≡ class_read p d.home) }
    {
        self.class_of(self.items.unit_of(offset)?)
    }

    // The class by which a unit is read, if it is.
    fn class_of(&self, unit: u32) -> Option<LanguageClass>
        ensures { ForUnit self.now.file unit (λ p w. result ≡ class_read p w) }
    {
        let reading = reading_at(self.readings, unit)?;
        Some(reading.class)
    }

    /// Where the item at a joint offset stands. None where its unit isn't read.
    pub(crate) fn place(&mut self, alloc: Global, offset: u64) -> Result<Option<Place>, NoMemory>
        ensures value { ForItem self.old.file offset (λ p d. IfOk result (λ place. place ≡ option_map (λ class. place_of p class d) (class_read p d.home))) }
        ensures kept { self.new ≡ self.old }
    {
        match self.items.unit_of(offset) {
            Some(unit) => self.place_in(alloc, unit, offset),
            None => Ok(None),
        }
    }

    // The same, in this unit.
    fn place_in(&mut self, alloc: Global, unit: u32, offset: u64) -> Result<Option<Place>, NoMemory>
        requires unit { IsUnitAt self.old.file offset (Some unit) }
        requires within { unit < length self.old.units }
        ensures value { ForItem self.old.file offset (λ p d. IfOk result (λ place. place ≡ option_map (λ class. place_of p class d) (class_read p d.home))) }
        ensures kept { self.new ≡ self.old }
    {
        match self.class_of(unit) {
            Some(class) => self.place_by(alloc, unit, class, offset),
            None => Ok(None),
        }
    }

    // The same, where the unit is read by this class. An item that isn't among the listed ones is sought among all.
    fn place_by(
        &mut self,
        alloc: Global,
        unit: u32,
        class: LanguageClass,
        offset: u64,
    ) -> Result<Option<Place>, NoMemory>
        requires unit { IsUnitAt self.old.file offset (Some unit) }
        requires within { unit < length self.old.units }
        requires class { ForUnit self.old.file unit (λ p w. class_read p w ≡ Some class) }
        ensures value { ForItem self.old.file offset (λ p d. IfOk result (λ place. place ≡ Some (place_of p class d))) }
        ensures kept { self.new ≡ self.old }
    {
        let listed = self.placed(alloc, unit, class)?;
        let found = listed.at(offset);
        if found.is_some() {
            return Ok(found);
        }
        let all = self.placed_whole(alloc, unit, class)?;
        Ok(all.at(offset))
    }

    // The places of what may be listed of a unit, or of all its items where there was need of more.
    fn placed(
        &mut self,
        alloc: Global,
        unit: u32,
        class: LanguageClass,
    ) -> Result<Arc<UnitPlaces<'f>>, NoMemory>
        requires within { unit < length self.old.units }
        requires class { ForUnit self.old.file unit (λ p w. class_read p w ≡ Some class) }
        ensures value { IfOk result (λ placed. IsPlaced self.old.file unit (arc_value placed)) }
        ensures kept { self.new ≡ self.old }
    {
        match self.units.get(&unit) {
            Some(placed) => Ok(Arc::try_clone(placed)?),
            None => {
                let read = self.items.items_of(alloc, unit)?;
                self.go_over(alloc, unit, class, read)
            }
        }
    }

    // The places of all items of a unit.
    fn placed_whole(
        &mut self,
        alloc: Global,
        unit: u32,
        class: LanguageClass,
    ) -> Result<Arc<UnitPlaces<'f>>, NoMemory>
        requires within { unit < length self.old.units }
        requires class { ForUnit self.old.file unit (λ p w. class_read p w ≡ Some class) }
        ensures whole { IfOk result (λ placed. (arc_value placed).read.which ≡ All) }
        ensures value { IfOk result (λ placed. IsPlaced self.old.file unit (arc_value placed)) }
        ensures kept { self.new ≡ self.old }
    {
        let placed = self.placed(alloc, unit, class)?;
        if placed.read.which == Which::All {
            return Ok(placed);
        }
        let read = self.items.all_items_of(alloc, unit)?;
        self.go_over(alloc, unit, class, read)
    }

    // The places of what was read of a unit, which are kept from then on.
    fn go_over(
        &mut self,
        alloc: Global,
        unit: u32,
        class: LanguageClass,
        read: ReadUnit<'f>,
    ) -> Result<Arc<UnitPlaces<'f>>, NoMemory>
        requires class { ForUnit self.old.file unit (λ p w. class_read p w ≡ Some class) }
        requires read { IsReadOf self.old.file unit read }
        ensures read { IfOk result (λ placed. (arc_value placed).read ≡ read.entry) }
        ensures value { IfOk result (λ placed. IsPlaced self.old.file unit (arc_value placed)) }
        ensures kept { self.new ≡ self.old }
    {
        let places = places_of(alloc, &mut self.items, class, read.items.as_slice())?;
        let placed = Arc::new(alloc, UnitPlaces { read, places })?;
        self.units.insert(unit, Arc::try_clone(&placed)?)?;
        Ok(placed)
    }
}
