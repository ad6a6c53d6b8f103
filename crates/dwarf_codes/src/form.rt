//! Forms (DWARF 5, section 7.5.6, table 7.6).

pub const DW_FORM_addr: u64 = 0x01;

pub const DW_FORM_block2: u64 = 0x03;

pub const DW_FORM_block4: u64 = 0x04;

pub const DW_FORM_data2: u64 = 0x05;

pub const DW_FORM_data4: u64 = 0x06;

pub const DW_FORM_data8: u64 = 0x07;

pub const DW_FORM_string: u64 = 0x08;

pub const DW_FORM_block: u64 = 0x09;

pub const DW_FORM_block1: u64 = 0x0a;

pub const DW_FORM_data1: u64 = 0x0b;

pub const DW_FORM_flag: u64 = 0x0c;

pub const DW_FORM_sdata: u64 = 0x0d;

pub const DW_FORM_strp: u64 = 0x0e;

pub const DW_FORM_udata: u64 = 0x0f;

pub const DW_FORM_ref_addr: u64 = 0x10;

pub const DW_FORM_ref1: u64 = 0x11;

pub const DW_FORM_ref2: u64 = 0x12;

pub const DW_FORM_ref4: u64 = 0x13;

pub const DW_FORM_ref8: u64 = 0x14;

pub const DW_FORM_ref_udata: u64 = 0x15;

pub const DW_FORM_indirect: u64 = 0x16;

pub const DW_FORM_sec_offset: u64 = 0x17;

pub const DW_FORM_exprloc: u64 = 0x18;

pub const DW_FORM_flag_present: u64 = 0x19;

pub const DW_FORM_strx: u64 = 0x1a;

pub const DW_FORM_addrx: u64 = 0x1b;

pub const DW_FORM_ref_sup4: u64 = 0x1c;

pub const DW_FORM_strp_sup: u64 = 0x1d;

pub const DW_FORM_data16: u64 = 0x1e;

pub const DW_FORM_line_strp: u64 = 0x1f;

pub const DW_FORM_ref_sig8: u64 = 0x20;

pub const DW_FORM_implicit_const: u64 = 0x21;

pub const DW_FORM_loclistx: u64 = 0x22;

pub const DW_FORM_rnglistx: u64 = 0x23;

pub const DW_FORM_ref_sup8: u64 = 0x24;

pub const DW_FORM_strx1: u64 = 0x25;

pub const DW_FORM_strx2: u64 = 0x26;

pub const DW_FORM_strx3: u64 = 0x27;

pub const DW_FORM_strx4: u64 = 0x28;

pub const DW_FORM_addrx1: u64 = 0x29;

pub const DW_FORM_addrx2: u64 = 0x2a;

pub const DW_FORM_addrx3: u64 = 0x2b;

pub const DW_FORM_addrx4: u64 = 0x2c;
