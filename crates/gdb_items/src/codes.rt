//! The attributes of gdb's rules that `dwarf_codes` doesn't have (DWARF 5, table 7.5).
#![allow(non_upper_case_globals)]

pub(crate) const DW_AT_producer: u64 = 0x25;

pub(crate) const DW_AT_extension: u64 = 0x54;
