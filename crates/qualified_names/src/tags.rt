//! The tags of entries that may have linkage names (DWARF 5, table 7.3), as a link keeps them.

use dwarf_codes::tag::{DW_TAG_subprogram, DW_TAG_variable};

pub(crate) const SUBPROGRAM: u16 = DW_TAG_subprogram as u16;

pub(crate) const VARIABLE: u16 = DW_TAG_variable as u16;
