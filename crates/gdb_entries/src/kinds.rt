//! The tags that gdb lists, and the kinds of their names (gdb/dwarf2/abbrev.c, `tag_interesting_for_index`; index-write.c,
//! `write_cooked_index`).

ghost use Rattle.std.specs.Prelude.{◌≡◌};
ghost use Rattle.gdb_entries.specs.Kinds.{kinds_of};

use crate::codes::{
    DW_TAG_array_type, DW_TAG_entry_point, DW_TAG_generic_subrange, DW_TAG_imported_declaration,
    DW_TAG_inlined_subroutine, DW_TAG_module, DW_TAG_ptr_to_member_type, DW_TAG_set_type,
    DW_TAG_string_type, DW_TAG_subroutine_type, DW_TAG_unspecified_type,
};
use dwarf_codes::tag::{
    DW_TAG_base_type, DW_TAG_class_type, DW_TAG_constant, DW_TAG_enumeration_type,
    DW_TAG_enumerator, DW_TAG_interface_type, DW_TAG_namespace, DW_TAG_structure_type,
    DW_TAG_subprogram, DW_TAG_subrange_type, DW_TAG_typedef, DW_TAG_union_type, DW_TAG_variable,
};
use index_model::Kind;

/// The kinds that the names of a tag have.
#[derive(Clone, Copy, Debug, PartialEq, Eq)]
pub enum Kinds {
    One(Kind),
    /// A type to gdb 13, and to gdb 16 nothing that has a kind of its own: such a name is written with both.
    TypeAndOther,
}

/// The kinds of the names of items with this tag. None where gdb doesn't list them.
#[tactic(auto, unfolding(crate::specs::Kinds::kinds_of))]
pub fn kinds_of(tag: u64) -> Option<Kinds>
    ensures { result ≡ kinds_of tag }
{
    match tag {
        DW_TAG_array_type
        | DW_TAG_class_type
        | DW_TAG_enumeration_type
        | DW_TAG_string_type
        | DW_TAG_structure_type
        | DW_TAG_subroutine_type
        | DW_TAG_typedef
        | DW_TAG_union_type
        | DW_TAG_ptr_to_member_type
        | DW_TAG_set_type
        | DW_TAG_subrange_type
        | DW_TAG_base_type
        | DW_TAG_interface_type
        | DW_TAG_namespace
        | DW_TAG_unspecified_type => Some(Kinds::One(Kind::TypeName)),
        DW_TAG_constant | DW_TAG_enumerator | DW_TAG_variable => Some(Kinds::One(Kind::Variable)),
        DW_TAG_entry_point | DW_TAG_subprogram => Some(Kinds::One(Kind::Function)),
        DW_TAG_module => Some(Kinds::One(Kind::Other)),
        DW_TAG_imported_declaration | DW_TAG_inlined_subroutine | DW_TAG_generic_subrange => {
            Some(Kinds::TypeAndOther)
        }
        _ => None,
    }
}
