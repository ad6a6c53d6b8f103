//! The image of a program file: the sections of an ELF file of 64 bits with the lowest byte first (System V gABI, chapters 4 and 5),
//! its units by their headers (DWARF 5, section 7.5.1; DWARF 4, section 7.5.1 for versions 2 to 4), and the strings of attributes
//! (DWARF 5, section 7.5.5, class string, and section 7.26).
//!
//! A string stands in the entry itself, in `.debug_str` or in `.debug_line_str`. Its offset into `.debug_str` may in turn
//! be looked up in `.debug_str_offsets`, by its index in the part of the unit.
#![tactic(auto)]

mod compressed;
mod found;
mod ident;
mod image;
mod resolved;
mod section_header;
mod section_table;
mod sections;
mod short_strings;
mod strings;
mod table;
mod text_limits;
mod tile;
mod unit_header;

pub use image::Image;
pub use section_header::Header;
pub use section_table::SectionTable;
pub use sections::Sections;
pub use strings::{test_text, text};
pub use tile::units;
