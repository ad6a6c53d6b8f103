//! Tags (DWARF 5, section 7.5.3, table 7.3).

pub const DW_TAG_class_type: u64 = 0x02;

pub const DW_TAG_enumeration_type: u64 = 0x04;

pub const DW_TAG_compile_unit: u64 = 0x11;

pub const DW_TAG_structure_type: u64 = 0x13;

pub const DW_TAG_typedef: u64 = 0x16;

pub const DW_TAG_union_type: u64 = 0x17;

pub const DW_TAG_subrange_type: u64 = 0x21;

pub const DW_TAG_base_type: u64 = 0x24;

pub const DW_TAG_constant: u64 = 0x27;

pub const DW_TAG_enumerator: u64 = 0x28;

pub const DW_TAG_subprogram: u64 = 0x2e;

pub const DW_TAG_variable: u64 = 0x34;

pub const DW_TAG_interface_type: u64 = 0x38;

pub const DW_TAG_namespace: u64 = 0x39;

pub const DW_TAG_partial_unit: u64 = 0x3c;

pub const DW_TAG_imported_unit: u64 = 0x3d;

pub const DW_TAG_type_unit: u64 = 0x41;

pub const DW_TAG_skeleton_unit: u64 = 0x4a;
