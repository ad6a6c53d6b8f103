//! Which items gdb looks at, which open their children, and which names are static (gdb/dwarf2/abbrev.c,
//! `abbrev_table::read`; read.c, `scan_attributes` and `index_dies`).

ghost use Rattle.std.specs.Prelude.{◌≡◌};
ghost use Rattle.gdb_entries.specs.Components.{gives_component};
ghost use Rattle.gdb_entries.specs.ItemNames.{is_called};
ghost use Rattle.gdb_entries.specs.Rules.{counts, gives_scope_alone, is_declared, is_declared_scope, is_allowed_in, is_static, opens, has_local_subprograms, is_shared_in_cxx, may_be_nameless};

use crate::codes::{DW_TAG_entry_point, DW_TAG_inlined_subroutine, DW_TAG_module};
use crate::kinds::kinds_of;
use crate::language::LanguageClass;
use dwarf_codes::tag::{
    DW_TAG_class_type, DW_TAG_enumeration_type, DW_TAG_enumerator, DW_TAG_interface_type,
    DW_TAG_namespace, DW_TAG_structure_type, DW_TAG_subprogram, DW_TAG_union_type, DW_TAG_variable,
};

/// What the rules ask of an item by itself.
#[derive(Clone, Copy)]
pub struct ItemFacts {
    pub tag: u64,
    pub children: bool,
    /// Whether it has a name, a linkage name, a specification, an abstract origin or an extension, in any form.
    pub named: bool,
    /// Whether it says that it is a declaration.
    pub declared: bool,
    /// Whether it says that it is external.
    pub external: bool,
}

/// Whether gdb looks at such an item wherever it comes to it.
pub fn counts(item: &ItemFacts) -> bool
    ensures { result ≡ counts item.now }
{
    let named = item.named || may_be_nameless(item.tag);
    named && kinds_of(item.tag).is_some() && (!is_declared(item) || is_declared_scope(item))
}

/// Whether an item is a declaration that isn't listed, but gives its name to what stands in it.
pub fn gives_scope_alone(item: &ItemFacts) -> bool
    ensures { result ≡ gives_scope_alone item.now }
{
    is_declared(item) && is_declared_scope(item)
}

// A variable that is external is looked at all the same.
fn is_declared(item: &ItemFacts) -> bool
    ensures { result ≡ is_declared item.now }
{
    item.declared && !(item.external && item.tag == DW_TAG_variable)
}

// Whether such a declaration gives scope.
fn is_declared_scope(item: &ItemFacts) -> bool
    ensures { result ≡ is_declared_scope item.now }
{
    item.children
        && matches!(
            item.tag,
            DW_TAG_class_type | DW_TAG_structure_type | DW_TAG_union_type | DW_TAG_namespace
        )
}

// Whether items with this tag count without a name.
fn may_be_nameless(tag: u64) -> bool
    ensures { result ≡ may_be_nameless tag }
{
    tag == DW_TAG_namespace || tag == DW_TAG_enumeration_type
}

/// Whether an item with this tag is looked at in the innermost open item around it, of which this is the tag. Of what
/// stands right in a subprogram only subprograms and entry points are, and entry points nowhere else.
pub fn is_allowed_in(around: Option<u64>, tag: u64) -> bool
    ensures { result ≡ is_allowed_in around tag }
{
    match around {
        Some(DW_TAG_subprogram) => tag == DW_TAG_subprogram || tag == DW_TAG_entry_point,
        _ => tag != DW_TAG_entry_point,
    }
}

/// Whether an item that is looked at opens its children. A name may be its own or by its chain.
pub fn opens(class: LanguageClass, tag: u64, children: bool, has_name: bool) -> bool
    ensures { result ≡ opens class tag children has_name }
{
    children
        && match tag {
            DW_TAG_namespace | DW_TAG_enumeration_type => true,
            DW_TAG_module => has_name,
            DW_TAG_class_type | DW_TAG_structure_type | DW_TAG_union_type | DW_TAG_interface_type =>
                { has_name && class != LanguageClass::C }
            DW_TAG_subprogram => has_name && has_local_subprograms(class),
            _ => false,
        }
}

// Whether subprograms stand in subprograms.
fn has_local_subprograms(class: LanguageClass) -> bool
    ensures { result ≡ has_local_subprograms class }
{
    matches!(class, LanguageClass::Ada | LanguageClass::Fortran)
}

/// Whether an open item on the scope path of another gives a component to its name, if it has a name itself. The enumerators
/// of an enumeration that isn't scoped take its scope.
pub fn gives_component(tag: u64, scoped: bool) -> bool
    ensures { result ≡ gives_component tag scoped }
{
    tag != DW_TAG_enumeration_type || scoped
}

/// Whether an item with this tag is listed by its linkage name where it has no other name.
pub fn is_called(tag: u64) -> bool
    ensures { result ≡ is_called tag }
{
    matches!(
        tag,
        DW_TAG_subprogram | DW_TAG_inlined_subroutine | DW_TAG_entry_point
    )
}

/// Whether the names of an item are static: they count in its own unit alone. An entry point is as its subprogram.
pub fn is_static(class: LanguageClass, tag: u64, external: bool) -> bool
    ensures { result ≡ is_static class tag external }
{
    !external
        && match tag {
            DW_TAG_namespace | DW_TAG_module => false,
            DW_TAG_subprogram => !has_local_subprograms(class),
            other => class != LanguageClass::Cxx || !is_shared_in_cxx(other),
        }
}

// Whether names with this tag are never static in C++, where each type is one in all units.
fn is_shared_in_cxx(tag: u64) -> bool
    ensures { result ≡ is_shared_in_cxx tag }
{
    matches!(
        tag,
        DW_TAG_class_type
            | DW_TAG_structure_type
            | DW_TAG_union_type
            | DW_TAG_interface_type
            | DW_TAG_enumeration_type
            | DW_TAG_enumerator
    )
}
