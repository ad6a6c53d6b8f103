//! Attributes (DWARF 5, section 7.5.4, table 7.5).

pub const DW_AT_location: u64 = 0x02;

pub const DW_AT_name: u64 = 0x03;

pub const DW_AT_stmt_list: u64 = 0x10;

pub const DW_AT_low_pc: u64 = 0x11;

pub const DW_AT_high_pc: u64 = 0x12;

pub const DW_AT_language: u64 = 0x13;

pub const DW_AT_import: u64 = 0x18;

pub const DW_AT_const_value: u64 = 0x1c;

pub const DW_AT_abstract_origin: u64 = 0x31;

pub const DW_AT_calling_convention: u64 = 0x36;

pub const DW_AT_declaration: u64 = 0x3c;

pub const DW_AT_external: u64 = 0x3f;

pub const DW_AT_specification: u64 = 0x47;

pub const DW_AT_entry_pc: u64 = 0x52;

pub const DW_AT_ranges: u64 = 0x55;

pub const DW_AT_signature: u64 = 0x69;

pub const DW_AT_main_subprogram: u64 = 0x6a;

pub const DW_AT_enum_class: u64 = 0x6d;

pub const DW_AT_linkage_name: u64 = 0x6e;

pub const DW_AT_str_offsets_base: u64 = 0x72;

pub const DW_AT_addr_base: u64 = 0x73;

pub const DW_AT_rnglists_base: u64 = 0x74;

/// As `DW_AT_linkage_name`, which it was before version 4 had that.
pub const DW_AT_MIPS_linkage_name: u64 = 0x2007;
