//! Files of line tables.

/// A file of a line table: its index there, the number of its directory, and its path as it stands in the program file.
#[derive(Clone, Copy)]
pub struct FileName<'f> {
    /// Counted from 1 up to version 4, and from 0 in version 5.
    pub index: u64,
    pub dir: u64,
    pub name: &'f [u8],
}

/// A file, and the number of the unit in whose line table it stands.
#[derive(Clone, Copy)]
pub struct FileHit<'f> {
    pub unit: u32,
    pub file: FileName<'f>,
}
