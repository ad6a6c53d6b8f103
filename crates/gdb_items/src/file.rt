//! The items of a file by their joint offsets.
//!
//! A unit is read once there is need of it, and what may be listed of it is kept. Where an offset is that of something else, or of no
//! item, the unit is read once more, and all its items are kept from then on.

ghost use Rattle.std.specs.Prelude.{◌≡◌, ◌<◌, length, option_map, IfOk, IfSome, Some};
ghost use Rattle.index_model.specs.Program.{item_with_offset};
ghost use Rattle.shard_build.specs.Found.{IsUnitAt};
ghost use Rattle.gdb_entries.specs.Files.{ForProgram, HasProgram};
ghost use Rattle.gdb_items.specs.Files.{IsItemIn, IsReadOf};
ghost use Rattle.gdb_items.specs.Items.{AreItemsOf};
ghost use Rattle.gdb_items.specs.Texts.{text_told};
ghost use Rattle.gdb_items.specs.declared.which.Which.TheVariants.{All};

use crate::item::UnitItem;
use crate::read_unit::ReadUnit;
use crate::tables::ReadTables;
use crate::text::ItemText;
use crate::unit::unit_items;
use crate::which::Which;
use file_image::Image;
use indexmap::IndexMap;
use ix_base::NoMemory;
use shard_build::unit_at;
use std::alloc::Global;
use std::marker::Model;
use std::sync::Arc;

/// The items of a file without a fault. Contracts see the image of the file.
#[derive(Drop)]
pub struct FileItems<'s, 'f> {
    image: &'s Image<'f>,
    tables: ReadTables<'f>,
    // What was read of units, by their numbers.
    units: IndexMap<u32, ReadUnit<'f>>,
}

impl<'s, 'f> Model for FileItems<'s, 'f> {
    ghost use Rattle.std.specs.Prelude.{◌≡◌, codes};
    ghost use Rattle.file_image.specs.Images.{Image as ImageOf};
    ghost use Rattle.index_model.specs.Sections.{section_bytes};
    ghost use Rattle.gdb_entries.specs.Files.{HasProgram};
    ghost use Rattle.gdb_items.specs.Files.{AreUnitsOf};

    ghost Value = { ImageOf };

    ghost view = { λ e. e.image.now };

    ghost invariant = { λ e. HasProgram e.image.now.file × e.tables ≡ section_bytes e.image.now.sections (codes ".debug_abbrev") × AreUnitsOf e.image.now.file e.units };
}

impl<'s, 'f> FileItems<'s, 'f> {
    /// The items of a file without a fault, of which no unit is read yet.
    pub fn new(alloc: Global, image: &'s Image<'f>) -> FileItems<'s, 'f>
        requires { HasProgram image.now.file }
        ensures { result ≡ image.now }
    {
        FileItems {
            image,
            tables: ReadTables::new(alloc, image.sections().debug_abbrev()),
            units: IndexMap::new(alloc),
        }
    }

    /// The item at a joint offset, of any unit. None where none begins there.
    pub fn at(&mut self, alloc: Global, offset: u64) -> Result<Option<UnitItem<'f>>, NoMemory>
        ensures value { ForProgram self.old.file (λ p. IfOk result (λ i. IsItemIn p.sections i (item_with_offset p offset))) }
        ensures kept { self.new ≡ self.old }
    {
        match self.unit_of(offset) {
            Some(unit) => self.within(alloc, unit, offset),
            None => Ok(None),
        }
    }

    /// The number of the unit in which an offset stands, if the file has it.
    pub fn unit_of(&self, offset: u64) -> Option<u32>
        ensures unit { IsUnitAt self.now.file offset result }
        ensures within { IfSome result (λ unit. unit < length self.now.units) }
    {
        let count = self.image.units().len();
        match unit_at(self.image, offset) {
            Some(unit) => if (unit as usize) < count {
                Some(unit)
            } else {
                None
            },
            None => None,
        }
    }

    /// The bytes of a text of an item of the file, borrowed from the file. An empty text is none.
    pub(crate) fn text(&self, text: ItemText<'f>) -> Option<&'f [u8]>
        ensures { ForProgram self.now.file (λ p. option_map (λ b. b.now) result ≡ text_told p.sections text.entry) }
    {
        text.bytes(self.image.sections())
    }

    /// What is read of a unit: the items that may be listed, or all where there was need of more.
    pub fn items_of(&mut self, alloc: Global, unit: u32) -> Result<ReadUnit<'f>, NoMemory>
        requires { unit < length self.old.units }
        ensures value { IfOk result (IsReadOf self.old.file unit) }
        ensures kept { self.new ≡ self.old }
    {
        match self.units.get(&unit) {
            Some(read) => read.share(),
            None => self.read(alloc, unit, Which::Listed),
        }
    }

    /// All items of a unit.
    pub fn all_items_of(&mut self, alloc: Global, unit: u32) -> Result<ReadUnit<'f>, NoMemory>
        requires { unit < length self.old.units }
        ensures which { IfOk result (λ read. read.which ≡ All) }
        ensures value { IfOk result (IsReadOf self.old.file unit) }
        ensures kept { self.new ≡ self.old }
    {
        let read = self.items_of(alloc, unit)?;
        match read.which {
            Which::All => Ok(read),
            Which::Listed => self.read(alloc, unit, Which::All),
        }
    }

    // Reads these items of a unit, which are kept from then on.
    fn read(&mut self, alloc: Global, unit: u32, which: Which) -> Result<ReadUnit<'f>, NoMemory>
        requires { unit < length self.old.units }
        ensures which { IfOk result (λ read. read.which ≡ which) }
        ensures value { IfOk result (IsReadOf self.old.file unit) }
        ensures kept { self.new ≡ self.old }
    {
        let items = self.unit_items(alloc, unit, which)?;
        let read = ReadUnit {
            which,
            items: Arc::new(alloc, items)?,
        };
        self.units.insert(unit, read.share()?)?;
        Ok(read)
    }

    // These items of a unit.
    fn unit_items(
        &mut self,
        alloc: Global,
        unit: u32,
        which: Which,
    ) -> Result<Vec<UnitItem<'f>>, NoMemory>
        requires { unit < length self.old.units }
        ensures items { IfOk result (λ items. AreItemsOf self.old.file unit which items.items) }
        ensures kept { self.new ≡ self.old }
    {
        unit_items(alloc, self.image, unit, which, &mut self.tables)
    }

    // The item at an offset of a unit.
    fn within(
        &mut self,
        alloc: Global,
        unit: u32,
        offset: u64,
    ) -> Result<Option<UnitItem<'f>>, NoMemory>
        requires unit { IsUnitAt self.old.file offset (Some unit) }
        requires within { unit < length self.old.units }
        ensures value { ForProgram self.old.file (λ p. IfOk result (λ i. IsItemIn p.sections i (item_with_offset p offset))) }
        ensures kept { self.new ≡ self.old }
    {
        self.read_listed(alloc, unit)?;
        match self.known(unit, offset) {
            Some(found) => Ok(found),
            None => self.read_all(alloc, unit, offset),
        }
    }

    // Reads what may be listed of a unit, if nothing was read of it yet.
    fn read_listed(&mut self, alloc: Global, unit: u32) -> Result<(), NoMemory>
        requires { unit < length self.old.units }
        ensures { self.new ≡ self.old }
    {
        if self.units.contains_key(&unit) {
            return Ok(());
        }
        let _read = self.read(alloc, unit, Which::Listed)?;
        Ok(())
    }

    // What is known of the item at an offset of a unit: nothing where what was read of the unit doesn't tell.
    fn known(&self, unit: u32, offset: u64) -> Option<Option<UnitItem<'f>>>
        requires unit { IsUnitAt self.now.file offset (Some unit) }
        requires within { unit < length self.now.units }
        ensures { IfSome result (λ found. ForProgram self.now.file (λ p. IsItemIn p.sections found (item_with_offset p offset))) }
    {
        // The units are those of the image's file.
        let _units = self.image.units();
        let read = self.units.get(&unit)?;
        match read.at(offset) {
            Some(item) => Some(Some(item)),
            None => match read.which {
                Which::All => Some(None),
                Which::Listed => None,
            },
        }
    }

    // The item at an offset of a unit, which is read whole and kept so.
    fn read_all(
        &mut self,
        alloc: Global,
        unit: u32,
        offset: u64,
    ) -> Result<Option<UnitItem<'f>>, NoMemory>
        requires unit { IsUnitAt self.old.file offset (Some unit) }
        requires within { unit < length self.old.units }
        ensures value { ForProgram self.old.file (λ p. IfOk result (λ i. IsItemIn p.sections i (item_with_offset p offset))) }
        ensures kept { self.new ≡ self.old }
    {
        // The units are those of the image's file.
        let _units = self.image.units();
        let read = self.read(alloc, unit, Which::All)?;
        Ok(read.at(offset))
    }
}
