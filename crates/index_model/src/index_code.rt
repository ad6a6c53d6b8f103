//! The codes of the faults of an index, in the order in which they are looked for: those of `.gdb_index`, and from 50 on
//! those of `.debug_names`.

/// A `.gdb_index` has no version, or another than 8 and 9.
pub const GDB_VERSION: u8 = 40;
/// The header is cut, the offset of an area lies before the area before it or past the end, or the shortcut area is too short.
pub const GDB_OFFSETS: u8 = 41;
/// The list of units or the list of type units ends inside an entry.
pub const GDB_UNIT_LIST: u8 = 42;
/// The address area ends inside an entry, or an entry has the number of no unit.
pub const GDB_ADDRESS_AREA: u8 = 43;
/// The symbol table ends inside a slot, or its slots are neither none nor a power of two.
pub const GDB_TABLE_SIZE: u8 = 44;
/// The name of a slot or of main has no end in the constant pool.
pub const GDB_BAD_NAME: u8 = 45;
/// The vector of a slot leaves the constant pool, or has the number of no unit.
pub const GDB_BAD_VECTOR: u8 = 46;
/// A slot isn't found by its name: an empty slot or one with the same name stands before it on the name's path.
pub const GDB_LOST_SLOT: u8 = 47;

/// The initial length of a `.debug_names` is cut or reserved, or the index doesn't end with its section.
pub const NAMES_LENGTH: u8 = 50;
/// The version is cut, or isn't 5.
pub const NAMES_VERSION: u8 = 51;
/// The counts or a table pass the end.
pub const NAMES_COUNTS: u8 = 52;
/// An abbreviation is cut, or has a number that is too large or an unknown form.
pub const NAMES_ABBREVIATION: u8 = 53;
/// A bucket holds the number of no name, or doesn't lead to one of its names.
pub const NAMES_BUCKET: u8 = 54;
/// A name has another hash.
pub const NAMES_HASH: u8 = 55;
/// The offset of a name is no offset of the strings, or no zero ends the name.
pub const NAMES_STRING_OFFSET: u8 = 56;
/// An entry offset passes the pool, or an entry is cut, has an unknown code, or doesn't say its unit and its offset.
pub const NAMES_ENTRY_POOL: u8 = 57;
