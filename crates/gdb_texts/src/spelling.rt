//! A name as it is spelled, wherever that was done.

ghost use Rattle.std.specs.Prelude.{◌≡◌, List, ℕ, IfOk};
ghost use Rattle.cxx_spelling.specs.declared.release.Release.{Release};
ghost use Rattle.gdb_names.specs.Both.{AreBoth};
ghost use Rattle.gdb_texts.specs.Spelled.{names_of};

use gdb_names::BothNames;
use ix_base::NoMemory;
use std::alloc::Global;

/// A name as gdb 13 and gdb 16 spell it.
#[derive(Drop)]
pub enum Spelling<'t, 'f> {
    /// It was spelled before.
    Kept(&'t BothNames<'f>),
    /// It is spelled for this item.
    New(BothNames<'f>),
}

impl<'t, 'f> Spelling<'t, 'f> {
    /// The names.
    pub fn names(&self) -> &BothNames<'f>
        ensures { result.now ≡ names_of self.now }
    {
        match self {
            Spelling::Kept(names) => names,
            Spelling::New(names) => names,
        }
    }

    /// The names with bytes of their own, where they aren't lent by the file.
    pub fn owned(self, alloc: Global) -> Result<BothNames<'f>, NoMemory>
        ensures { (text : Release → List ℕ) → AreBoth text (names_of self.entry) → IfOk result (AreBoth text) }
    {
        match self {
            Spelling::Kept(names) => Ok(names.copied(alloc)?),
            Spelling::New(names) => Ok(names),
        }
    }
}
