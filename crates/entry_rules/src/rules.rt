//! Which entries are visited, indexed and static.

ghost use Rattle.std.specs.Prelude.{◌≡◌};
ghost use Rattle.index_model.specs.Rules.{is_visited_under, is_indexed, is_static, opens, row_allows, row_of};

use crate::tag::in_table;
use dwarf_codes::tag::{
    DW_TAG_base_type, DW_TAG_class_type, DW_TAG_constant, DW_TAG_enumeration_type,
    DW_TAG_enumerator, DW_TAG_interface_type, DW_TAG_namespace, DW_TAG_structure_type,
    DW_TAG_subprogram, DW_TAG_subrange_type, DW_TAG_typedef, DW_TAG_union_type, DW_TAG_variable,
};
use index_model::{Class, Facts, Parent};

/// Whether an entry with such a parent is visited. The children of the root are, and those of a visited namespace, class,
/// structure, union, interface or enumeration. In an Ada unit those of a visited subprogram are too.
pub fn visited(parent: Parent, ada: bool) -> bool
    ensures { result ≡ is_visited_under parent ada }
{
    match parent {
        Parent::Root => true,
        Parent::Other => false,
        Parent::Seen(tag) => opens(tag, ada),
    }
}

// Whether the children of a visited entry are visited.
fn opens(tag: u64, ada: bool) -> bool
    ensures { result ≡ opens ada tag }
{
    match tag {
        DW_TAG_namespace
        | DW_TAG_class_type
        | DW_TAG_structure_type
        | DW_TAG_union_type
        | DW_TAG_interface_type
        | DW_TAG_enumeration_type => true,
        DW_TAG_subprogram => ada,
        _ => false,
    }
}

/// Whether an entry is indexed: it is visited, isn't a declaration itself, has a name, and has itself what its tag asks
/// for. A subprogram needs an address; a variable and a constant need a value.
pub fn indexed(facts: &Facts) -> bool
    ensures { result ≡ is_indexed facts.now }
{
    facts.visited && !facts.declaration && facts.named && has_what_its_tag_asks(facts)
}

// Whether the entry has a tag of the table, and what that tag asks for.
fn has_what_its_tag_asks(facts: &Facts) -> bool
    ensures { result ≡ row_allows facts.now (row_of facts.now.tag) }
{
    match facts.tag {
        DW_TAG_subprogram => facts.address,
        DW_TAG_variable | DW_TAG_constant => facts.value,
        tag => in_table(tag),
    }
}

/// Whether the name of an entry is static: it counts in its own unit alone (GDB manual, "Index Section Format").
pub fn is_static(facts: &Facts) -> bool
    ensures { result ≡ is_static facts.now }
{
    match facts.tag {
        DW_TAG_class_type
        | DW_TAG_structure_type
        | DW_TAG_union_type
        | DW_TAG_interface_type
        | DW_TAG_enumeration_type
        | DW_TAG_enumerator => facts.class != Class::Cxx,
        DW_TAG_typedef | DW_TAG_base_type | DW_TAG_subrange_type => true,
        DW_TAG_subprogram => !facts.external && facts.class != Class::Ada,
        DW_TAG_variable | DW_TAG_constant => !facts.external,
        _ => false,
    }
}
