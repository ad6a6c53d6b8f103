//! The releases of gdb that spell some names differently.

/// Whose spelling of a name it is. gdb 16 reads types of functions as template arguments, which gdb 13 leaves as they stand, and
/// writes integer literals and characters as decimal numbers.
#[derive(Clone, Copy, Debug, PartialEq, Eq)]
pub enum Release {
    /// gdb 13.1.
    Gdb13,
    /// gdb 16.3.
    Gdb16,
}
