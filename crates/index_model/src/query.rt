//! What can be asked of an index.

/// A question about a program.
#[derive(Clone, Copy, Debug, PartialEq, Eq)]
pub enum Query<'q> {
    /// All entries with this name, linkage names included.
    Name(&'q [u8]),
    /// All entries with this simple name.
    Simple(&'q [u8]),
    /// The unit at this address.
    Addr(u64),
    /// The main program.
    Main,
    /// The length of the index bytes.
    Cache,
}
