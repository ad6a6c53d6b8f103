//! The tags and languages of gdb's rules that `dwarf_codes` doesn't have (DWARF 5, tables 7.3 and 7.17, and the codes that
//! were given behind them).
#![allow(non_upper_case_globals)]

pub(crate) const DW_TAG_array_type: u64 = 0x01;

pub const DW_TAG_entry_point: u64 = 0x03;

pub(crate) const DW_TAG_imported_declaration: u64 = 0x08;

pub(crate) const DW_TAG_string_type: u64 = 0x12;

pub(crate) const DW_TAG_subroutine_type: u64 = 0x15;

pub(crate) const DW_TAG_inlined_subroutine: u64 = 0x1d;

pub(crate) const DW_TAG_module: u64 = 0x1e;

pub(crate) const DW_TAG_ptr_to_member_type: u64 = 0x1f;

pub(crate) const DW_TAG_set_type: u64 = 0x20;

pub(crate) const DW_TAG_unspecified_type: u64 = 0x3b;

pub(crate) const DW_TAG_generic_subrange: u64 = 0x45;

pub(crate) const DW_LANG_Fortran77: u16 = 0x07;

pub(crate) const DW_LANG_Fortran90: u16 = 0x08;

pub(crate) const DW_LANG_Java: u16 = 0x0b;

pub(crate) const DW_LANG_Fortran95: u16 = 0x0e;

pub(crate) const DW_LANG_UPC: u16 = 0x12;

pub(crate) const DW_LANG_D: u16 = 0x13;

pub(crate) const DW_LANG_Go: u16 = 0x16;

pub(crate) const DW_LANG_Rust: u16 = 0x1c;

pub(crate) const DW_LANG_Fortran03: u16 = 0x22;

pub(crate) const DW_LANG_Fortran08: u16 = 0x23;

pub(crate) const DW_LANG_Fortran18: u16 = 0x2d;

pub(crate) const DW_LANG_C_plus_plus_23: u16 = 0x3a;

pub(crate) const DW_LANG_C23: u16 = 0x3e;

pub(crate) const DW_LANG_Fortran23: u16 = 0x3f;

/// As `DW_LANG_Rust`, which it was before Rust had a code of its own.
pub(crate) const DW_LANG_Rust_old: u16 = 0x9000;
