//! The codes of the faults of address tables, of line tables and of kept indexes.

/// An address set's initial length is cut or reserved, the set leaves `.debug_aranges`, or its header doesn't fit.
pub const ARANGES_LENGTH: u8 = 60;
/// The version of an address set isn't 2.
pub const ARANGES_VERSION: u8 = 61;
/// The offset of an address set isn't the start of a unit of `.debug_info`.
pub const ARANGES_UNIT: u8 = 62;
/// The addresses of a set don't have 8 bytes, or it has segments.
pub const ARANGES_SIZES: u8 = 63;
/// An address set ends before the pair of zeros that ends it.
pub const ARANGES_NO_END: u8 = 64;

/// A unit's line table begins past `.debug_line`, or its length is cut, reserved, or leaves the section.
pub const LINES_LENGTH: u8 = 70;
/// The version of a line table is cut, or isn't 2 to 5.
pub const LINES_VERSION: u8 = 71;
/// The fields or tables of a line table's header pass its end, a LEB number is too large, or entries have no formats.
pub const LINES_FIELDS: u8 = 72;
/// An entry format has an unknown form, a path that is no string, or a directory that is no number.
pub const LINES_FORM: u8 = 73;
/// The place of a path passes its section, or no zero follows.
pub const LINES_PATH: u8 = 74;

/// A kept index doesn't begin as one, or its build-id is cut.
pub const KEPT_HEADER: u8 = 80;
/// A kept index has another build-id.
pub const KEPT_BUILD_ID: u8 = 81;
/// A kept index is too large to be read.
pub const KEPT_TOO_LARGE: u8 = 82;
