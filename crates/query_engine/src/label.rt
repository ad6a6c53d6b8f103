//! The name of an entry, with what tells its simple name.

ghost use Rattle.std.specs.Prelude.{◌≡◌, ◌≤◌, length, IsTrue};
ghost use Rattle.query_engine.specs.Labels.{IsWholeLabel, label_of, labelled};

use index_model::Entry;

/// A name as an entry has it. Entries with one label are found by one name, and by one simple name if they have one.
#[derive(Clone, Copy)]
pub(crate) struct Label<'r> {
    pub name: &'r [u8],
    /// The simple name is the last `tail` bytes of the name.
    pub tail: u32,
    pub linkage: bool,
    ghost fits: { tail ≤ length name.now },
}

impl<'r> Label<'r> {
    /// The label of an entry.
    pub fn of(entry: &'r Entry<'_>) -> Label<'r>
        requires { entry.now.tail ≤ length entry.now.name }
        ensures { labelled result.linkage result.tail result.name.now ≡ label_of entry.now }
    {
        Label {
            name: entry.name.bytes(),
            tail: entry.tail,
            linkage: entry.linkage,
        }
    }

    /// Whether it is the other one.
    pub fn is(&self, other: &Label<'_>) -> bool
        ensures { IsTrue result → labelled self.now.linkage self.now.tail self.now.name.now ≡ labelled other.now.linkage other.now.tail other.now.name.now }
    {
        self.tail == other.tail && self.linkage == other.linkage && self.name == other.name
    }

    /// Whether the name is the simple name. A linkage entry has none.
    pub fn is_whole(&self) -> bool
        ensures { IsTrue result → IsWholeLabel self.now.linkage self.now.tail self.now.name.now }
    {
        !self.linkage && self.tail as usize == self.name.len()
    }
}
