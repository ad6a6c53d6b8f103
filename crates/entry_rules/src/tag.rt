//! The tags whose entries an index may list (DWARF 5, section 7.5.3, table 7.3).

ghost use Rattle.std.specs.Prelude.{◌≡◌};
ghost use Rattle.index_model.specs.Rules.{kind_of, is_in_table};

use dwarf_codes::tag::{
    DW_TAG_base_type, DW_TAG_class_type, DW_TAG_constant, DW_TAG_enumeration_type,
    DW_TAG_enumerator, DW_TAG_interface_type, DW_TAG_namespace, DW_TAG_structure_type,
    DW_TAG_subprogram, DW_TAG_subrange_type, DW_TAG_typedef, DW_TAG_union_type, DW_TAG_variable,
};
use index_model::Kind;

/// The kind of the names of entries with this tag. None where an index doesn't list them.
pub fn kind(tag: u64) -> Option<Kind>
    ensures { result ≡ kind_of tag }
{
    match tag {
        DW_TAG_class_type
        | DW_TAG_structure_type
        | DW_TAG_union_type
        | DW_TAG_interface_type
        | DW_TAG_enumeration_type
        | DW_TAG_namespace
        | DW_TAG_typedef
        | DW_TAG_base_type
        | DW_TAG_subrange_type => Some(Kind::TypeName),
        DW_TAG_enumerator | DW_TAG_variable | DW_TAG_constant => Some(Kind::Variable),
        DW_TAG_subprogram => Some(Kind::Function),
        _ => None,
    }
}

/// Whether an index may list entries with this tag.
pub fn in_table(tag: u64) -> bool
    ensures { result ≡ is_in_table tag }
{
    kind(tag).is_some()
}
