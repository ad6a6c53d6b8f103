//! The items that gdb looks at.

use gdb_items::UnitItem;

/// An item that gdb looks at, and where it stands.
#[derive(Clone, Copy)]
pub struct SeenItem<'f> {
    pub item: UnitItem<'f>,
    /// The joint offset of the open item around it, if there is one.
    pub around: Option<u64>,
}
