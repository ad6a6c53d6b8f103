//! The ways to ask for an entry: by its name or by its simple name.

ghost use Rattle.std.specs.Prelude.{◌≡◌};
ghost use Rattle.query_engine.specs.Asked.{counts_by, text_by};

use crate::label::Label;

/// The way in which entries are asked for.
#[derive(Clone, Copy)]
pub(crate) enum Way {
    ByName,
    BySimple,
}

impl Way {
    /// Whether entries with this label can be found this way. A linkage entry has no simple name.
    pub fn counts(self, label: &Label<'_>) -> bool
        ensures { result ≡ counts_by self label.now.linkage }
    {
        match self {
            Way::ByName => true,
            Way::BySimple => !label.linkage,
        }
    }

    /// The text that the asked name is compared with.
    pub fn text<'r>(self, label: &Label<'r>) -> &'r [u8]
        ensures { result.now ≡ text_by self label.now.linkage label.now.tail label.now.name.now }
    {
        let name = label.name;
        match self {
            Way::ByName => name,
            Way::BySimple => &name[name.len() - label.tail as usize..],
        }
    }
}
