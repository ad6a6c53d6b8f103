//! What makes an entry the main program (DWARF 5, section 3.3.1).

ghost use Rattle.std.specs.Prelude.{◌≡◌, ◌==◌, ◌&&◌, not, true, bytes_eq, codes};
ghost use Rattle.index_model.specs.Entries.{is_link_static};
ghost use Rattle.index_model.specs.MainProgram.{full_name, is_c_or_cxx};
ghost use Rattle.index_model.specs.Tags.{subprogram};
ghost use Rattle.qualified_names.specs.Indexed.{ForAnyLink};
ghost use Rattle.qualified_names.specs.Sought.{ForCounted, is_main_by};
ghost use Rattle.qualified_names.specs.declared.sought.MainBy.TheVariants.{Said, Named};

use crate::tags::SUBPROGRAM;
use entry_rules::{Class, class};
use index_model::LinkedEntry;
use parent_resolve::Languages;

// The name of the main program in C and C++.
const MAIN: &[u8] = b"main";

/// How the main program is told.
#[derive(Clone, Copy)]
pub(crate) enum MainBy {
    /// By an entry that says it itself.
    Said,
    /// By its name.
    Named,
}

impl MainBy {
    /// Whether an indexed entry is told to be the main program. It isn't one in a unit without a language.
    pub(crate) fn tells(self, languages: &mut Languages<'_, '_>, entry: &LinkedEntry<'_>) -> bool
        ensures value { ForCounted languages.old entry.now (λ p k. result ≡ is_main_by p self k) }
        ensures kept { languages.new ≡ languages.old }
    {
        match self {
            MainBy::Said => is_said(languages, entry),
            MainBy::Named => is_named(languages, entry),
        }
    }
}

fn is_said(languages: &mut Languages<'_, '_>, entry: &LinkedEntry<'_>) -> bool
    ensures value { ForCounted languages.old entry.now (λ p k. result ≡ is_main_by p Said k) }
    ensures kept { languages.new ≡ languages.old }
{
    if !entry.main {
        return false;
    }
    languages.of(entry.unit) != 0
}

fn is_named(languages: &mut Languages<'_, '_>, entry: &LinkedEntry<'_>) -> bool
    ensures value { ForCounted languages.old entry.now (λ p k. result ≡ is_main_by p Named k) }
    ensures kept { languages.new ≡ languages.old }
{
    if !has_main_name(entry) {
        return false;
    }
    may_be_named_main(entry, class(languages.of(entry.unit)))
}

// Whether the entry is a subprogram with the qualified name `main`, if its class is C or C++.
fn has_main_name(entry: &LinkedEntry<'_>) -> bool
    ensures { ForAnyLink entry.now (λ k. is_c_or_cxx k.class ≡ true → result ≡ (k.entry.item.tag == subprogram && bytes_eq (full_name k) (codes "main"))) }
{
    entry.tag == SUBPROGRAM && is_called_main(entry)
}

// Whether the qualified name is `main`, if the class is C or C++: a longer one has components.
fn is_called_main(entry: &LinkedEntry<'_>) -> bool
    ensures { ForAnyLink entry.now (λ k. is_c_or_cxx k.class ≡ true → result ≡ bytes_eq (full_name k) (codes "main")) }
{
    entry.length as usize == MAIN.len() && entry.name == MAIN
}

// Whether a subprogram that is named so is main: in C and C++, where it isn't static.
fn may_be_named_main(entry: &LinkedEntry<'_>, class: Class) -> bool
    ensures { ForAnyLink entry.now (λ k. class ≡ k.class → result ≡ (is_c_or_cxx k.class && not (is_link_static k))) }
{
    matches!(class, Class::C | Class::Cxx) && !entry.local
}
