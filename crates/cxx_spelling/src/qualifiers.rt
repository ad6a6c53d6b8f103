//! The qualifiers of types (C++, [dcl.type.cv]), with `restrict`, which gdb takes for one.

ghost use Rattle.std.specs.Prelude.{◌≡◌};
ghost use Rattle.cxx_spelling.specs.Qualifiers.{with_qualifier};

/// A qualifier.
#[derive(Clone, Copy)]
pub(crate) enum Qualifier {
    Const,
    Volatile,
    Restrict,
}

/// A set of qualifiers.
#[derive(Clone, Copy)]
pub(crate) struct Qualifiers {
    pub(crate) constant: bool,
    pub(crate) volatile: bool,
    pub(crate) restrict: bool,
}

/// The empty set.
pub(crate) const NO_QUALIFIERS: Qualifiers = Qualifiers {
    constant: false,
    volatile: false,
    restrict: false,
};

impl Qualifiers {
    /// These qualifiers and one more.
    pub(crate) fn with(self, qualifier: Qualifier) -> Qualifiers
        ensures { result ≡ with_qualifier self qualifier }
    {
        let mut qualifiers = self;
        match qualifier {
            Qualifier::Const => qualifiers.constant = true,
            Qualifier::Volatile => qualifiers.volatile = true,
            Qualifier::Restrict => qualifiers.restrict = true,
        }
        qualifiers
    }
}
