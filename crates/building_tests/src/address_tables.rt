//! aranges_read. What readelf shows of the program's table, and of the ranges of its unit.

use address_map::{AddressMap, Range, UnitRange};
use aranges_read::{compare, read};
use file_image::Image;
use ix_base::Stop;
use test_files::programs::ADDRESS_TABLE;

// The range of the only unit from 0x1000 on.
fn until(end: u64) -> UnitRange {
    UnitRange {
        unit: 0,
        range: Range { low: 0x1000, end },
    }
}

#[test]
fn table_lacks_the_second_half(rt: HostRuntime) -> Result<(), Stop> {
    let image = Image::open(rt.alloc(), &ADDRESS_TABLE)?;
    let table = read(rt.alloc(), &image)?;
    assert_eq!(rt; table.pieces(), [until(0x1010)].as_slice());
    let own = AddressMap::build(rt.alloc(), &[until(0x1020)])?;
    let found = compare(&table, &own).map(|found| (found.address, found.table, found.own));
    assert_eq!(rt; found, Some((0x1010, None, Some(0))));
    Ok(())
}

#[test]
fn table_agrees_with_itself(rt: HostRuntime) -> Result<(), Stop> {
    let image = Image::open(rt.alloc(), &ADDRESS_TABLE)?;
    let table = read(rt.alloc(), &image)?;
    assert!(rt; compare(&table, &table).is_none());
    Ok(())
}
