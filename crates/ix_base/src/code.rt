//! The codes of the faults of a program file, in the order in which they are looked for.

/// Fewer than 64 bytes, or other first four bytes than those of an ELF file.
pub const NOT_ELF: u8 = 1;
/// Not 64 bits, not little-endian, or neither an executable nor a shared object.
pub const ELF_KIND: u8 = 2;
/// The table of section headers, the names' section, a section or a section's name leaves the file.
pub const SECTION_TABLE: u8 = 3;
/// A debug section is compressed.
pub const COMPRESSED: u8 = 4;
/// `.debug_info` is empty.
pub const NO_DEBUG_INFO: u8 = 5;
/// A unit's initial length is cut or reserved, or the unit or its header leaves its section.
pub const UNIT_LENGTH: u8 = 6;
/// A unit has an unknown version.
pub const UNIT_VERSION: u8 = 7;
/// A unit has an unknown unit type.
pub const UNIT_TYPE: u8 = 8;
/// A unit's addresses don't have 8 bytes.
pub const ADDRESS_SIZE: u8 = 9;
/// A unit's abbreviation table lies outside its section, ends too early, or has a number that is too large.
pub const BAD_ABBREVIATION: u8 = 10;
/// A unit ends inside an entry, or a LEB128 number in it is too large.
pub const TRUNCATED: u8 = 11;
/// A form that isn't known.
pub const UNKNOWN_FORM: u8 = 12;
/// A string lies outside its section, or no zero ends it.
pub const BAD_STRING: u8 = 13;
/// An indexed form whose base the root doesn't have.
pub const NO_BASE: u8 = 14;
/// A range list or an address table ends too early, or has an entry of an unknown kind.
pub const BAD_RANGE: u8 = 15;
/// A reference that doesn't name an entry.
pub const BAD_REFERENCE: u8 = 16;
/// A chain of references or a scope path that is too long.
pub const REFERENCE_CHAIN: u8 = 17;
/// A form that names a supplementary file.
pub const SUPPLEMENTARY: u8 = 18;
/// A code without an abbreviation.
pub const BAD_CODE: u8 = 19;
/// The root of a unit has another tag than that of a unit.
pub const BAD_ROOT: u8 = 20;
/// An entry is too deep.
pub const DEPTH: u8 = 21;
/// More units than an index can number.
pub const TOO_MANY_UNITS: u8 = 22;
/// A byte other than zero after a root's tree.
pub const TRAILING_BYTES: u8 = 23;
/// A string or a qualified name is too long.
pub const NAME_TOO_LONG: u8 = 24;
