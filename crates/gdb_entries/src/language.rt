//! The class of a source language, as gdb tells languages apart (gdb/dwarf2/read.c, `dwarf_lang_to_enum_language`).

ghost use Rattle.std.specs.Prelude.{◌≡◌};
ghost use Rattle.gdb_entries.specs.Classes.{class_of};

use crate::codes::{
    DW_LANG_C_plus_plus_23, DW_LANG_C23, DW_LANG_D, DW_LANG_Fortran03, DW_LANG_Fortran08,
    DW_LANG_Fortran18, DW_LANG_Fortran23, DW_LANG_Fortran77, DW_LANG_Fortran90, DW_LANG_Fortran95,
    DW_LANG_Go, DW_LANG_Java, DW_LANG_Rust, DW_LANG_Rust_old, DW_LANG_UPC,
};
use dwarf_codes::language::{
    DW_LANG_Ada83, DW_LANG_Ada95, DW_LANG_Ada2005, DW_LANG_Ada2012, DW_LANG_C, DW_LANG_C_plus_plus,
    DW_LANG_C_plus_plus_11, DW_LANG_C_plus_plus_14, DW_LANG_C_plus_plus_17, DW_LANG_C_plus_plus_20,
    DW_LANG_C11, DW_LANG_C17, DW_LANG_C89, DW_LANG_C99,
};

/// The classes of languages. gdb knows more, but tells no others apart where it makes an index.
#[derive(Clone, Copy, Debug, PartialEq, Eq)]
pub enum LanguageClass {
    C,
    Cxx,
    Ada,
    Rust,
    D,
    Go,
    Fortran,
    Other,
}

/// The class of a language code. C++03 is one that gdb doesn't know.
#[tactic(auto, unfolding(crate::specs::Classes::class_of))]
pub fn class(language: u16) -> LanguageClass
    ensures { result ≡ class_of language }
{
    match language {
        DW_LANG_C89
        | DW_LANG_C
        | DW_LANG_C99
        | DW_LANG_UPC
        | DW_LANG_C11
        | DW_LANG_C17
        | DW_LANG_C23 => { LanguageClass::C }
        DW_LANG_C_plus_plus
        | DW_LANG_Java
        | DW_LANG_C_plus_plus_11
        | DW_LANG_C_plus_plus_14
        | DW_LANG_C_plus_plus_17
        | DW_LANG_C_plus_plus_20
        | DW_LANG_C_plus_plus_23 => LanguageClass::Cxx,
        DW_LANG_Ada83 | DW_LANG_Ada95 | DW_LANG_Ada2005 | DW_LANG_Ada2012 => LanguageClass::Ada,
        DW_LANG_Rust | DW_LANG_Rust_old => LanguageClass::Rust,
        DW_LANG_D => LanguageClass::D,
        DW_LANG_Go => LanguageClass::Go,
        DW_LANG_Fortran77
        | DW_LANG_Fortran90
        | DW_LANG_Fortran95
        | DW_LANG_Fortran03
        | DW_LANG_Fortran08
        | DW_LANG_Fortran18
        | DW_LANG_Fortran23 => LanguageClass::Fortran,
        _ => LanguageClass::Other,
    }
}
