//! Index attributes (DWARF 5, section 6.1.1.4.7, table 6.1).

pub const DW_IDX_compile_unit: u64 = 0x01;

pub const DW_IDX_type_unit: u64 = 0x02;

pub const DW_IDX_die_offset: u64 = 0x03;
