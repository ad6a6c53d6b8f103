//! parent_resolve. The function stands in the first unit, and its class in the third.

use crate::whole::scanned;
use file_image::Image;
use index_model::LinkedEntry;
use parent_resolve::{References, link};
use std::alloc::Global;
use std::test::Fail;
use test_files::programs::THREE_UNITS;

// Offset, whether it is static, name, linkage name and length of the whole name.
type Row = (u64, bool, &'static [u8], Option<&'static [u8]>, u32);

// `ns::C::f`, `ns` and `ns::C`.
const ENTRIES: [Row; 3] = [
    (0x13, false, b"f", None, 8),
    (0x51, false, b"ns", None, 2),
    (0x55, false, b"C", None, 5),
];

fn is(entry: &LinkedEntry<'_>, row: &Row) -> bool {
    let names = (entry.name, entry.linkage);
    (entry.offset, entry.local, names.0, names.1, entry.length) == *row
}

// Whether the entries are the rows.
fn are(entries: &[LinkedEntry<'_>], rows: &[Row]) -> bool {
    let mut same = entries.len() == rows.len();
    for (entry, row) in entries.iter().zip(rows) {
        same = same && is(entry, row);
    }
    same
}

fn linked(alloc: Global, image: &Image<'_>) -> Result<bool, Fail> {
    let shards = scanned(alloc, image)?;
    let linked = link(alloc, image, &shards, 0)?;
    Ok(are(linked.entries.as_slice(), &ENTRIES))
}

#[test]
fn entries_with_their_names(rt: HostRuntime) -> Result<(), Fail> {
    let image = Image::open(rt.alloc(), &THREE_UNITS)?;
    assert!(rt; linked(rt.alloc(), &image)?);
    Ok(())
}

// The lexical parent of the entry at which the chain of another one's references ends, and whether the chain gives that one this
// name and makes it external.
fn end(
    references: &mut References<'_, '_>,
    alloc: Global,
    name: &[u8],
) -> Option<(Option<u64>, bool, bool)> {
    let node = match references.at(alloc, 0x13) {
        Ok(Some(node)) => node,
        _ => return None,
    };
    match references.follow(alloc, &node, 0x13) {
        Ok(end) => Some((end.around, end.spelled == Some(name), end.external)),
        Err(_) => None,
    }
}

fn followed(alloc: Global, image: &Image<'_>) -> Result<Option<(Option<u64>, bool, bool)>, Fail> {
    let shards = scanned(alloc, image)?;
    let mut references = References::new(alloc, image, &shards)?;
    Ok(end(&mut references, alloc, b"f"))
}

#[test]
fn a_chain_over_three_units(rt: HostRuntime) -> Result<(), Fail> {
    let image = Image::open(rt.alloc(), &THREE_UNITS)?;
    let end = followed(rt.alloc(), &image)?;
    assert_eq!(rt; end, Some((Some(0x55), true, true)));
    Ok(())
}
