//! Which items of a unit are read.

ghost use Rattle.std.specs.Prelude.{◌≡◌};
ghost use Rattle.gdb_items.specs.Items.{keeps};

use dwarf_codes::attribute::DW_AT_declaration;
use entry_scan::Item;
use gdb_entries::kinds_of;

/// Which items of a unit are read.
#[derive(Clone, Copy, Debug, PartialEq, Eq)]
pub enum Which {
    /// The root, items with children, those whose tag gdb lists, and declarations: a static member is one, and the target of its
    /// definition's chain.
    Listed,
    /// Each item.
    All,
}

impl Which {
    /// Whether an item is among them.
    pub(crate) fn keeps(self, entry: &Item<'_>) -> bool
        ensures { result ≡ keeps self entry.now }
    {
        match self {
            Which::Listed => entry.depth() == 0
                || entry.children()
                || kinds_of(entry.tag()).is_some()
                || entry.is_set(DW_AT_declaration),
            Which::All => true,
        }
    }
}
