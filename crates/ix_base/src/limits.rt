//! How large a program may be.

/// The bytes of a program file or an index file.
pub const MAX_FILE_BYTES: u64 = 1_073_741_824;

/// The units of a program.
pub const MAX_UNITS: u32 = 16_777_215;

/// The depth of an entry, the root having depth 0.
pub const MAX_DEPTH: u32 = 1024;

/// The hops of a chain of references.
pub const MAX_CHAIN_HOPS: u32 = 8;

/// The steps of a scope path, the step to the root counted.
pub const MAX_PATH_STEPS: u32 = 1024;

/// The bytes of one string of a name.
pub const MAX_STRING: u64 = 1_048_576;

/// The bytes of a qualified name.
pub const MAX_QUALIFIED_NAME: u64 = 16_777_216;
