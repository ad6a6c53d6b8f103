//! elf_add: what a small program says to sections that are to be added. What is made of them is a row in rows/vectors.

use elf_add::{Adder, NoRoom};
use ix_base::OrMemory;
use std::test::Fail;
use test_files::indexes::{GDB8, NAMES};
use test_files::programs::PLAIN;

#[test]
fn a_section_is_added_once(rt: HostRuntime) -> Result<(), Fail> {
    let mut adder = Adder::new(rt.alloc(), &PLAIN)?;
    let first = adder.section(b".gdb_index", &GDB8).is_ok();
    let again = matches!(
        adder.section(b".gdb_index", &GDB8),
        Err(OrMemory::Cause(NoRoom::Present))
    );
    let taken = matches!(
        adder.section(b".debug_info", &GDB8),
        Err(OrMemory::Cause(NoRoom::Present))
    );
    assert_eq!(rt; (first, again, taken), (true, true, true));
    Ok(())
}

#[test]
fn strings_are_added_once(rt: HostRuntime) -> Result<(), Fail> {
    let mut adder = Adder::new(rt.alloc(), &PLAIN)?;
    let section = adder.section(b".debug_names", &NAMES).is_ok();
    let strings = adder.extend(b"main\0").is_ok();
    let again = matches!(
        adder.extend(b"main\0"),
        Err(OrMemory::Cause(NoRoom::Present))
    );
    assert_eq!(rt; (section, strings, again), (true, true, true));
    Ok(())
}
