//! What stands between the components of a name (gdb/dwarf2/cooked-index.c, `full_name`).

ghost use Rattle.std.specs.Prelude.{◌≡◌};
ghost use Rattle.gdb_entries.specs.Classes.{separator_of, separator_text};

use crate::language::LanguageClass;

/// A separator of components.
#[derive(Clone, Copy, Debug, PartialEq, Eq)]
pub enum Separator {
    /// `::`
    Colons,
    /// `.`
    Point,
    /// `__`, as Ada's names are encoded.
    Lines,
}

/// The separator of a class. Where it has none a name has no scope before it.
pub fn separator_of(class: LanguageClass) -> Option<Separator>
    ensures { result ≡ separator_of class }
{
    match class {
        LanguageClass::Cxx | LanguageClass::Rust => Some(Separator::Colons),
        LanguageClass::D | LanguageClass::Go => Some(Separator::Point),
        LanguageClass::Ada => Some(Separator::Lines),
        LanguageClass::C | LanguageClass::Fortran | LanguageClass::Other => None,
    }
}

impl Separator {
    /// As it stands in a name.
    pub fn text(self) -> &'static [u8]
        ensures { result.now ≡ separator_text self }
    {
        match self {
            Separator::Colons => b"::",
            Separator::Point => b".",
            Separator::Lines => b"__",
        }
    }
}
