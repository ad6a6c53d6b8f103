//! elf_make.

use elf_make::{Packer, make};
use std::test::Fail;
use test_files::generated::SEED_7_UNITS_3;
use test_files::programs::PLAIN;

// The sections of `PLAIN` stand in it behind its header.
#[tactic(auto, unfolding(elf_make::specs::Packed::name_table, elf_make::specs::Packed::names))]
#[test]
fn two_sections_are_packed(rt: HostRuntime) -> Result<(), Fail> {
    let mut packer = Packer::new(rt.alloc(), 2)?;
    packer.add(b".debug_abbrev", &PLAIN[64..91])?;
    packer.add(b".debug_info", &PLAIN[91..140])?;
    assert_eq!(rt; packer.finish()?.as_slice(), PLAIN.as_slice());
    Ok(())
}

#[test]
fn three_units_are_generated(rt: HostRuntime) -> Result<(), Fail> {
    let file = make(rt.alloc(), 7, 3)?;
    assert_eq!(rt; file.as_slice(), SEED_7_UNITS_3.as_slice());
    Ok(())
}
