//! string_ends.

use std::alloc::Global;
use std::test::Fail;
use string_ends::{Formula, hashes_of};

// A name, and bytes that no zero ends.
const STRINGS: &[u8] = b"Main\0x";

// Where the name begins, its end "in", the string without bytes, and what has no end.
const OFFSETS: [u64; 4] = [0, 2, 4, 5];

// The hash of each.
fn hashes(alloc: Global, formula: Formula) -> Option<[Option<u32>; 4]> {
    let known = hashes_of(alloc, formula, STRINGS, &OFFSETS)?;
    Some([known[0], known[1], known[2], known[3]].map(|known| Some(known?.hash)))
}

#[test]
fn the_ends_of_a_name_have_their_hashes(rt: HostRuntime) -> Result<(), Fail> {
    let gdb = hashes(rt.alloc(), Formula::GdbIndex).ok_or("no hashes")?;
    assert_eq!(rt; gdb, [Some(0xffec_89e9), Some(0xffff_fde5), Some(0), None]);
    let names = hashes(rt.alloc(), Formula::NameIndex).ok_or("no hashes")?;
    assert_eq!(rt;
        names,
        [Some(0x7c9a_7f6a), Some(0x59_783c), Some(0x1505), None]
    );
    Ok(())
}
