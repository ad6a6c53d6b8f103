//! gdbindex_read and debugnames_read.

use debugnames_read::{NameHit, NameIndex, Sort};
use gdbindex_read::GdbIndex;
use std::test::Fail;
use test_files::indexes::{GDB8, GDB9, NAMES};

// The only element of a name.
fn only(index: &GdbIndex<'_>, name: &[u8]) -> Option<u32> {
    let found = index.find(name);
    if found.len() == 1 {
        return Some(found.get(0));
    }
    None
}

// The element of `main`, how many a part of that name has, and the units at the last address of the program and behind it.
fn looked_up(index: &GdbIndex<'_>) -> (Option<u32>, usize, [Option<u32>; 2]) {
    let units = [index.unit_at(0x101f), index.unit_at(0x1020)];
    (only(index, b"main"), index.find(b"mai").len(), units)
}

#[test]
fn a_gdb_index_of_each_version(rt: HostRuntime) -> Result<(), Fail> {
    let eight = GdbIndex::open(rt.alloc(), &GDB8).map_err(|_| "refused")?;
    let nine = GdbIndex::open(rt.alloc(), &GDB9).map_err(|_| "refused")?;
    // a function of unit 0
    let wanted = (Some(0x3000_0000), 0, [Some(0), None]);
    assert_eq!(rt; [looked_up(&eight), looked_up(&nine)], [wanted, wanted]);
    let mains = [eight, nine].map(|index| index.main_name().map(|main| (main.language, main.name)));
    assert_eq!(rt; mains, [None, Some((0xc, b"main".as_slice()))]);
    Ok(())
}

const MAIN: NameHit = NameHit {
    sort: Sort::Compile,
    unit: 0,
    tag: 0x2e,
    offset: 0x1e,
};

// The first two hits of a name.
fn hits(index: &NameIndex<'_>, name: &[u8]) -> [Option<NameHit>; 2] {
    let mut hits = index.find(name);
    [hits.next(), hits.next()]
}

#[test]
fn an_index_of_names(rt: HostRuntime) -> Result<(), Fail> {
    let index = NameIndex::open(rt.alloc(), &NAMES, b"main\0", 0).map_err(|_| "refused")?;
    let found = [hits(&index, b"main"), hits(&index, b"mai")];
    assert_eq!(rt; found, [[Some(MAIN), None], [None, None]]);
    Ok(())
}

// An index without buckets, whose names a, b and c have three strings. The entries of b are the last of those of a, and c has
// those of a.
const SHARED: &[u8; 76] =
    b"\x48\0\0\0\x05\0\0\0\x01\0\0\0\0\0\0\0\0\0\0\0\0\0\0\0\x03\0\0\0\x07\0\0\0\0\0\0\0\
      \0\0\0\0\0\0\0\0\x02\0\0\0\x04\0\0\0\0\0\0\0\x02\0\0\0\0\0\0\0\
      \x01\x2e\x03\x0b\0\0\0\x01\x10\x01\x20\0";

// The offsets of the first three hits of a name.
fn offsets(index: &NameIndex<'_>, name: &[u8]) -> [Option<u64>; 3] {
    let mut hits = index.find(name);
    [hits.next(), hits.next(), hits.next()].map(|hit| hit.map(|hit| hit.offset))
}

#[test]
fn names_that_share_entries(rt: HostRuntime) -> Result<(), Fail> {
    let index = NameIndex::open(rt.alloc(), SHARED, b"a\0b\0c\0", 0).map_err(|_| "refused")?;
    let found = [
        offsets(&index, b"a"),
        offsets(&index, b"b"),
        offsets(&index, b"c"),
    ];
    let both = [Some(0x10), Some(0x20), None];
    assert_eq!(rt; found, [both, [Some(0x20), None, None], both]);
    Ok(())
}
