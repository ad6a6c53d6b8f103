//! What an index lists: the named entries of a program (DWARF 5, section 6.1.1.1).

use crate::list::List;
use crate::text::Text;

/// What an entry names, as an index tells it apart (GDB manual, "Index Section Format", symbol kinds).
#[derive(Clone, Copy, Debug, PartialEq, Eq)]
pub enum Kind {
    /// A type.
    TypeName,
    Variable,
    Function,
    Other,
}

/// A name of a debugging information entry.
#[derive(Drop)]
pub struct Entry<'f> {
    /// The unit's number in section order, counted from 0.
    pub unit: u32,
    /// The joint offset of the debugging information entry.
    pub offset: u64,
    pub tag: u16,
    pub kind: Kind,
    /// Whether the name is static: it counts in its own unit alone.
    pub local: bool,
    /// Whether the name is the linkage name.
    pub linkage: bool,
    pub name: Text<'f>,
    /// The simple name is the last `tail` bytes of the name.
    pub tail: u32,
}

/// The entries of a run of consecutive units, in section order.
pub type Run<'f> = List<Entry<'f>>;
