//! The sections and the units of a file, as readelf shows them.

use file_image::{Image, SectionTable, Sections, units};
use index_model::{Part, Unit, UnitSort};
use std::test::Fail;
use test_files::programs::{PLAIN, THREE_UNITS};

// Whether a section has the bytes of the file from one place to another.
fn stands_at(sections: &Sections<'_>, name: &[u8], from: usize, to: usize) -> bool {
    PLAIN.get(from..to) == Some(sections.get(name))
}

fn compared(sections: &Sections<'_>) -> [bool; 4] {
    [
        stands_at(sections, b".debug_abbrev", 64, 91),
        stands_at(sections, b".debug_info", 91, 140),
        stands_at(sections, b".debug_str", 0, 0),
        stands_at(sections, b"", 0, 0),
    ]
}

#[test]
fn sections_by_name(rt: HostRuntime) -> Result<(), Fail> {
    let sections = Sections::open(rt.alloc(), &PLAIN)?;
    let found = compared(&sections);
    let units = units(rt.alloc(), &sections)?.len();
    assert_eq!(rt; (found, units), ([true; 4], 1));
    Ok(())
}

// Name, type, place, size and alignment of `.debug_info`, as readelf shows them; and behind the last section.
#[test]
fn sections_by_index(rt: HostRuntime) -> Result<(), Fail> {
    let table = SectionTable::open(&PLAIN)?;
    let found = match table.header(2) {
        Some(h) => (h.name, h.kind, h.at, h.size, h.alignment),
        None => (0, 0, 0, 0, 0),
    };
    let index = Sections::open(rt.alloc(), &PLAIN)?.index_of(b".debug_info");
    assert_eq!(rt; (table.count(), table.names(), index), (4, 3, Some(2)));
    assert_eq!(rt;
        (found, table.header(4).is_none()),
        ((15, 1, 91, 49, 1), true)
    );
    Ok(())
}

const FIRST: Unit = Unit {
    start: 0,
    part: Part::Info,
    length: 0x25,
    version: 5,
    wide: false,
    sort: UnitSort::Compile,
    abbrev: 0,
    body: 12,
    signature: 0,
    type_offset: 0,
};

const UNITS: [Unit; 3] = [
    FIRST,
    Unit {
        start: 0x25,
        length: 0x19,
        ..FIRST
    },
    Unit {
        start: 0x3e,
        length: 0x20,
        ..FIRST
    },
];

fn has_units(image: &Image<'_>) -> bool {
    image.units() == UNITS.as_slice()
}

fn has_second_at(image: &Image<'_>, from: usize, to: usize) -> bool {
    let info = image.sections().get(b".debug_info");
    image.units().len() == 3 && Some(image.unit_bytes(1)) == info.get(from..to)
}

#[test]
fn units_one_after_the_other(rt: HostRuntime) -> Result<(), Fail> {
    let image = Image::open(rt.alloc(), &THREE_UNITS)?;
    let found = (has_units(&image), has_second_at(&image, 0x25, 0x3e));
    let whole = image.file() == THREE_UNITS.as_slice();
    assert_eq!(rt; (found, whole), ((true, true), true));
    Ok(())
}
