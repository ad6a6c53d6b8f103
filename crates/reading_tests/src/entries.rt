//! entry_scan: the entries of the third unit of a C++ program, as readelf shows them.

use entry_scan::{Abbrevs, Token, Walk};
use file_image::Image;
use std::alloc::Global;
use std::test::Fail;
use test_files::programs::THREE_UNITS;

// Offset, end, depth and tag of an entry, and whether it has children.
type Row = (u64, u64, u32, u64, bool);

// A unit, in it a namespace, in it a class, and in it the declaration of a method.
const ENTRIES: [Option<Row>; 4] = [
    Some((0x4a, 0x51, 0, 0x11, true)),
    Some((0x51, 0x55, 1, 0x39, true)),
    Some((0x55, 0x58, 2, 0x02, true)),
    Some((0x58, 0x5b, 3, 0x2e, false)),
];

fn next(walk: &mut Walk<'_>) -> Option<Row> {
    match walk.next() {
        Ok(Some(item)) => {
            let place = (item.offset(), item.after());
            Some((place.0, place.1, item.depth(), item.tag(), item.children()))
        }
        _ => None,
    }
}

// Depth and end of the null entry that comes next.
fn null(walk: &mut Walk<'_>) -> Option<(u32, u64)> {
    match walk.token() {
        Ok(Some(Token::Null { depth, after })) => Some((depth, after)),
        _ => None,
    }
}

fn is_over(walk: &mut Walk<'_>) -> bool {
    matches!(walk.next(), Ok(None))
}

// The entries of a unit, the null entry behind them, and whether no entry comes then.
type Walked = ([Option<Row>; 4], Option<(u32, u64)>, bool);

// A walk over the third unit.
fn walked(image: &Image<'_>, abbrevs: &Abbrevs) -> Option<Walked> {
    if image.units().len() != 3 {
        return None;
    }
    let unit = image.units()[2];
    let mut walk = Walk::new(image.unit_bytes(2), &unit, abbrevs);
    let entries = [
        next(&mut walk),
        next(&mut walk),
        next(&mut walk),
        next(&mut walk),
    ];
    let null = null(&mut walk);
    Some((entries, null, is_over(&mut walk)))
}

fn third_unit(alloc: Global, image: &Image<'_>) -> Result<Option<Walked>, Fail> {
    let table = image.sections().get(b".debug_abbrev");
    let abbrevs = Abbrevs::read(alloc, table, 0)?;
    Ok(walked(image, &abbrevs))
}

#[test]
fn entries_in_their_order(rt: HostRuntime) -> Result<(), Fail> {
    let image = Image::open(rt.alloc(), &THREE_UNITS)?;
    let walked = third_unit(rt.alloc(), &image)?;
    assert_eq!(rt; walked, Some((ENTRIES, Some((3, 0x5c)), true)));
    Ok(())
}
