//! The class of a source language, by its code (DWARF 5, section 7.12).

ghost use Rattle.std.specs.Prelude.{◌≡◌};
ghost use Rattle.index_model.specs.Languages.{class_of};

use dwarf_codes::language::{
    DW_LANG_Ada83, DW_LANG_Ada95, DW_LANG_Ada2005, DW_LANG_Ada2012, DW_LANG_C, DW_LANG_C_plus_plus,
    DW_LANG_C_plus_plus_03, DW_LANG_C_plus_plus_11, DW_LANG_C_plus_plus_14, DW_LANG_C_plus_plus_17,
    DW_LANG_C_plus_plus_20, DW_LANG_C11, DW_LANG_C17, DW_LANG_C89, DW_LANG_C99,
};
use index_model::Class;

/// The class of a language code. Codes that aren't known have the class Plain.
#[tactic(auto, unfolding(index_model::specs::Languages::class_of))]
pub fn class(language: u16) -> Class
    ensures { result ≡ class_of language }
{
    match language {
        DW_LANG_C89 | DW_LANG_C | DW_LANG_C99 | DW_LANG_C11 | DW_LANG_C17 => Class::C,
        DW_LANG_C_plus_plus
        | DW_LANG_C_plus_plus_03
        | DW_LANG_C_plus_plus_11
        | DW_LANG_C_plus_plus_14
        | DW_LANG_C_plus_plus_17
        | DW_LANG_C_plus_plus_20 => Class::Cxx,
        DW_LANG_Ada83 | DW_LANG_Ada95 | DW_LANG_Ada2005 | DW_LANG_Ada2012 => Class::Ada,
        _ => Class::Plain,
    }
}
