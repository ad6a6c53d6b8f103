//! Languages (DWARF 5, section 7.12, table 7.17, and the codes that were given behind it).

pub const DW_LANG_C89: u16 = 0x01;

pub const DW_LANG_C: u16 = 0x02;

pub const DW_LANG_Ada83: u16 = 0x03;

pub const DW_LANG_C_plus_plus: u16 = 0x04;

pub const DW_LANG_C99: u16 = 0x0c;

pub const DW_LANG_Ada95: u16 = 0x0d;

pub const DW_LANG_C_plus_plus_03: u16 = 0x19;

pub const DW_LANG_C_plus_plus_11: u16 = 0x1a;

pub const DW_LANG_C11: u16 = 0x1d;

pub const DW_LANG_C_plus_plus_14: u16 = 0x21;

pub const DW_LANG_C_plus_plus_17: u16 = 0x2a;

pub const DW_LANG_C_plus_plus_20: u16 = 0x2b;

pub const DW_LANG_C17: u16 = 0x2c;

pub const DW_LANG_Ada2005: u16 = 0x2e;

pub const DW_LANG_Ada2012: u16 = 0x2f;
