//! address_map. The answers were worked out by hand.

use address_map::{AddressMap, Range, UnitRange};
use ix_base::NoMemory;
use std::alloc::Global;

// A unit, and where a range of it begins and ends.
type Row = (u32, u64, u64);

// A unit in front hides the middle of one behind it, and touching pieces of one unit are one.
const RANGES: [Row; 6] = [
    (3, 40, 50),
    (4, 10, 90),
    (5, 0, 30),
    (5, 90, 95),
    (5, 95, 99),
    (6, 20, 20),
];

const PIECES: [Row; 5] = [
    (5, 0, 10),
    (4, 10, 40),
    (3, 40, 50),
    (4, 50, 90),
    (5, 90, 99),
];

fn range(row: Row) -> UnitRange {
    let (unit, low, end) = row;
    UnitRange {
        unit,
        range: Range { low, end },
    }
}

fn has_pieces(map: &AddressMap) -> bool {
    let pieces = PIECES.map(|row| range(row));
    map.pieces() == pieces.as_slice()
}

#[test]
fn pieces_are_cut_and_joined(rt: HostRuntime) -> Result<(), NoMemory> {
    let map = AddressMap::build(rt.alloc(), &RANGES.map(|row| range(row)))?;
    let units = [0, 49, 50, 99].map(|address| map.unit_at(address));
    let wanted = [Some(5), Some(3), Some(4), None];
    assert_eq!(rt; (has_pieces(&map), units), (true, wanted));
    Ok(())
}

// More ranges than any room of a fixed size has.
const MANY: u32 = 120_000;

// Ranges of 16 bytes, each of a unit of its own and in front of the one before it.
fn descending(alloc: Global) -> Result<Vec<UnitRange>, NoMemory> {
    let mut ranges = Vec::with_capacity(alloc, MANY as usize)?;
    for unit in 0..MANY {
        let low = u64::from(MANY - unit) * 16;
        ranges.push(range((unit, low, low + 16)))?;
    }
    Ok(ranges)
}

#[test]
fn many_ranges_descend(rt: HostRuntime) -> Result<(), NoMemory> {
    let map = AddressMap::build(rt.alloc(), &descending(rt.alloc())?)?;
    let units = [
        15,
        16,
        32,
        16 * 60_000 + 15,
        16 * 120_000 + 15,
        16 * 120_001,
    ];
    let found = units.map(|address| map.unit_at(address));
    let wanted = [
        None,
        Some(119_999),
        Some(119_998),
        Some(60_000),
        Some(0),
        None,
    ];
    assert_eq!(rt; (map.pieces().len(), found), (120_000, wanted));
    Ok(())
}
