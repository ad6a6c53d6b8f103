//! The classes of the units' languages (DWARF 5, sections 3.1.1 and 7.12).

ghost use Rattle.std.specs.Prelude.{◌≡◌};
ghost use Rattle.parent_resolve.specs.UnitClasses.{IsClassAt};

use crate::languages::Languages;
use entry_rules::{Class, class};

/// The class of the language of the unit with this number.
pub(crate) fn class_of(languages: &mut Languages<'_, '_>, unit: u32) -> Class
    ensures value { IsClassAt languages.old unit result }
    ensures kept { languages.new ≡ languages.old }
{
    class(languages.of(unit))
}
