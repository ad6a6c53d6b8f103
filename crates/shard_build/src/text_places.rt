//! Where in the file the texts of entries are thought to stand. Nothing rests on it: a list of nodes compares the bytes there.

use crate::home::UnitInFile;
use crate::texts::{ItemTexts, TextOffsets};
use dwarf_codes::attribute::DW_AT_name;
use entry_scan::Item;
use file_image::SectionTable;
use index_model::{Part, Places, Value};
use ix_base::{Cursor, MAX_FILE_BYTES, NoMemory};
use memchr::memmem;
use reading_limit::ReadingLimit;

// How many bytes of texts a run may read, and how many more for each entry. Entries of a file may share one long text, and to read
// it for each of them would cost the square of what the file costs to read.
const READ: u64 = 1 << 30;

const READ_EACH: u64 = 4096;

/// Where in the file the sections begin in which texts stand, 0 where there is no such section, and how many bytes of texts may
/// still be read.
#[derive(Clone, Copy)]
pub(crate) struct TextPlaces {
    info: u64,
    types: u64,
    str: u64,
    line_str: u64,
    to_read: ReadingLimit,
}

impl TextPlaces {
    /// The places in a file.
    pub fn of(file: &[u8]) -> TextPlaces {
        let mut places = TextPlaces {
            info: 0,
            types: 0,
            str: 0,
            line_str: 0,
            to_read: ReadingLimit::of(READ),
        };
        if file.len() as u64 <= MAX_FILE_BYTES {
            if let Ok(table) = SectionTable::open(file) {
                places.info = place_of(file, &table, b".debug_info\0");
                places.types = place_of(file, &table, b".debug_types\0");
                places.str = place_of(file, &table, b".debug_str\0");
                places.line_str = place_of(file, &table, b".debug_line_str\0");
            }
        }
        places
    }

    /// Where the texts of an entry stand, whose unit's part of `.debug_str_offsets` begins at the base.
    pub fn of_entry(
        &self,
        home: &UnitInFile<'_, '_>,
        base: Option<u64>,
        entry: &Item<'_>,
    ) -> Places {
        self.at_offsets(home, base, entry, &TextOffsets::of(entry))
    }

    /// The same, where it is known how its texts are reached.
    #[inline(always)]
    pub fn at_offsets(
        &self,
        home: &UnitInFile<'_, '_>,
        base: Option<u64>,
        entry: &Item<'_>,
        offsets: &TextOffsets,
    ) -> Places {
        Places {
            name: self.of_attribute(home, base, entry, DW_AT_name, offsets.name),
            linkage: self.of_attribute(
                home,
                base,
                entry,
                offsets.linkage_attribute,
                offsets.linkage,
            ),
        }
    }

    /// Takes in that the texts of an entry were read. Wants memory where too many bytes were.
    pub fn count(&mut self, texts: &ItemTexts<'_>) -> Result<(), NoMemory> {
        let bytes = bytes_of(texts.name).saturating_add(bytes_of(texts.linkage));
        self.to_read.widen(READ_EACH);
        self.to_read.take(bytes).ok_or(NoMemory)
    }

    // Where the text of an attribute stands, which may be known to be an offset of `.debug_str`.
    #[inline(always)]
    fn of_attribute(
        &self,
        home: &UnitInFile<'_, '_>,
        base: Option<u64>,
        entry: &Item<'_>,
        attribute: u64,
        offset: Option<u64>,
    ) -> u64 {
        match offset {
            Some(at) => self.str.saturating_add(at),
            None => self.of_value(home, base, entry, &entry.value(attribute)),
        }
    }

    // Where the text of a value stands, 0 where there is none.
    fn of_value(
        &self,
        home: &UnitInFile<'_, '_>,
        base: Option<u64>,
        item: &Item<'_>,
        value: &Option<Value<'_>>,
    ) -> u64 {
        match value {
            Some(Value::Inline(text)) => self.of_inline(home, item, text),
            Some(Value::Str(at)) => self.str.saturating_add(*at),
            Some(Value::LineStr(at)) => self.line_str.saturating_add(*at),
            Some(Value::StrIndex(index)) => {
                self.str.saturating_add(indexed_offset(home, base, *index))
            }
            _ => 0,
        }
    }

    // Where a text that stands in an entry itself stands.
    fn of_inline(&self, home: &UnitInFile<'_, '_>, item: &Item<'_>, text: &[u8]) -> u64 {
        let end = home.bytes.len();
        let from = item
            .offset()
            .saturating_sub(home.unit.start)
            .min(end as u64) as usize;
        let to = item.after().saturating_sub(home.unit.start).min(end as u64) as usize;
        match memmem::find(&home.bytes[from.min(to)..to], text) {
            Some(at) => self
                .of_unit(home)
                .saturating_add(from as u64)
                .saturating_add(at as u64),
            None => 0,
        }
    }

    // Where a unit begins.
    fn of_unit(&self, home: &UnitInFile<'_, '_>) -> u64 {
        match home.unit.part {
            Part::Info => self.info.saturating_add(home.unit.start),
            Part::Types => {
                let base = home.sections.debug_info().len() as u64;
                self.types
                    .saturating_add(home.unit.start.saturating_sub(base))
            }
        }
    }
}

// How many bytes a text has, if there is one.
fn bytes_of(text: Option<&[u8]>) -> u64 {
    match text {
        Some(text) => text.len() as u64,
        None => 0,
    }
}

// The offset that stands at an index of a unit's part of `.debug_str_offsets`, 0 where none does.
fn indexed_offset(home: &UnitInFile<'_, '_>, base: Option<u64>, index: u64) -> u64 {
    let size = if home.unit.wide { 8 } else { 4 };
    let at = base.unwrap_or(0).saturating_add(index.saturating_mul(size));
    let offsets = home.sections.debug_str_offsets();
    let at = at.min(offsets.len() as u64);
    Cursor::new(offsets, at as usize)
        .offset(home.unit.wide)
        .unwrap_or(0)
}

// Where the first section of a name begins in the file, 0 where there is none. A zero ends the name.
fn place_of(file: &[u8], table: &SectionTable<'_>, name: &[u8]) -> u64 {
    let names = match table.header(table.names()) {
        Some(header) => header.at,
        None => 0,
    };
    for index in 1..table.count() {
        if let Some(header) = table.header(index) {
            if stands_at(file, names.saturating_add(header.name as u64), name) {
                return header.at;
            }
        }
    }
    0
}

// Whether a text stands in the file at a place.
fn stands_at(file: &[u8], at: u64, text: &[u8]) -> bool {
    let at = at.min(file.len() as u64) as usize;
    file[at..].starts_with(text)
}
