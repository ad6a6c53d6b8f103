//! range_lists.

use crate::whole::{linked, scanned};
use file_image::Image;
use index_model::{Range, UnitRange};
use range_lists::FoundRanges;
use std::alloc::Global;
use std::test::Fail;
use test_files::programs::{THREE_UNITS, TWO_RANGES};

// The ranges of the first unit, which is read so many times.
fn ranges_of(alloc: Global, image: &Image<'_>, times: u32) -> Result<FoundRanges, Fail> {
    let shards = scanned(alloc, image)?;
    let links = linked(alloc, image, &shards)?;
    let mut found = FoundRanges::none(alloc);
    for _ in 0..times {
        found.add_unit(image, &shards, &links, 0)?;
    }
    Ok(found)
}

fn has_ranges(
    alloc: Global,
    image: &Image<'_>,
    times: u32,
    want: &[UnitRange],
) -> Result<bool, Fail> {
    let found = ranges_of(alloc, image, times)?;
    Ok(found.ranges() == want)
}

fn range(low: u64, end: u64) -> UnitRange {
    UnitRange {
        unit: 0,
        range: Range { low, end },
    }
}

#[test]
fn ranges_of_a_root(rt: HostRuntime) -> Result<(), Fail> {
    let image = Image::open(rt.alloc(), &TWO_RANGES)?;
    let want = [range(0x1010, 0x1020), range(0x1000, 0x1008)];
    assert!(rt; has_ranges(rt.alloc(), &image, 1, &want)?);
    Ok(())
}

// A list is read once.
#[test]
fn a_list_that_was_read_before(rt: HostRuntime) -> Result<(), Fail> {
    let image = Image::open(rt.alloc(), &TWO_RANGES)?;
    let want = [range(0x1010, 0x1020), range(0x1000, 0x1008)];
    assert!(rt; has_ranges(rt.alloc(), &image, 2, &want)?);
    Ok(())
}

#[test]
fn ranges_of_a_subprogram(rt: HostRuntime) -> Result<(), Fail> {
    let image = Image::open(rt.alloc(), &THREE_UNITS)?;
    assert!(rt; has_ranges(rt.alloc(), &image, 1, &[range(0x2000, 0x2010)])?);
    Ok(())
}
