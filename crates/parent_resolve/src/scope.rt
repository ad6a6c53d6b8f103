//! How far a scope path goes, and how much it puts before a C++ name (DWARF 5, section 2.13.2).

ghost use Rattle.std.specs.Prelude.{◌≡◌, ◌+◌, ◌<◌, ◌≤◌, min, List, option_map};
ghost use Rattle.index_model.specs.Names.{Member, component};
ghost use Rattle.index_model.specs.Chains.{name_with};
ghost use Rattle.index_model.specs.Program.{Located};
ghost use Rattle.index_model.specs.Sections.{Section};
ghost use Rattle.index_model.specs.ShardParts.{IsNodeOf};
ghost use Rattle.parent_resolve.specs.Scopes.{greatest, names_its_members, part_length};

use dwarf_codes::tag::{
    DW_TAG_class_type, DW_TAG_enumeration_type, DW_TAG_interface_type, DW_TAG_namespace,
    DW_TAG_structure_type, DW_TAG_union_type,
};
use index_model::Node;

// Stands behind each component of a scope.
const SEPARATOR: &[u8] = b"::";

// The name of a namespace that has none.
const ANONYMOUS: &[u8] = b"(anonymous namespace)";

/// The members of a scope path, the root counted, and the length of what they put before a name, or the greatest `usize`
/// where it is greater.
#[derive(Clone, Copy)]
pub(crate) struct Scope {
    pub(crate) steps: u32,
    pub(crate) length: usize,
}

impl Scope {
    /// The scope of a path without members.
    pub(crate) const EMPTY: Scope = Scope {
        steps: 0,
        length: 0,
    };

    /// The scope with one more member, which puts so much before a name.
    pub(crate) fn with(self, part: usize) -> Scope
        requires { self.steps < 1024 }
        ensures steps { result.steps ≡ self.steps + 1 }
        ensures length { result.length ≡ min greatest (self.length + part) }
    {
        Scope {
            steps: self.steps + 1,
            length: self.length.saturating_add(part),
        }
    }

    /// The scope with the path behind its last member.
    pub(crate) fn within(self, outer: Scope) -> Scope
        requires { self.steps + outer.steps ≤ 1024 }
        ensures steps { result.steps ≡ self.steps + outer.steps }
        ensures length { result.length ≡ min greatest (self.length + outer.length) }
    {
        Scope {
            steps: self.steps + outer.steps,
            length: self.length.saturating_add(outer.length),
        }
    }
}

/// The scope of the path around entries with this lexical parent, which is the path's first member.
#[derive(Clone, Copy)]
pub(crate) struct ScopeAround {
    pub(crate) parent: u64,
    pub(crate) scope: Scope,
}

/// A member of a scope path by its joint offset, and the length of what it puts before a name, or the greatest `usize` where
/// it is greater.
#[derive(Clone, Copy)]
pub(crate) struct PathMember {
    pub(crate) offset: u64,
    pub(crate) part: usize,
}

/// The name of an entry for which the file spells this name: a namespace without one is anonymous.
#[tactic(auto, unfolding(index_model::specs::ShardParts::node_facts))]
pub(crate) fn name_with<'f>(node: &Node<'f>, spelled: Option<&'f [u8]>) -> Option<&'f [u8]>
    ensures { (ss : List Section) (d : Located) → IsNodeOf ss node.now d → option_map (λ t. t.now) result ≡ name_with d (option_map (λ t. t.now) spelled.entry) }
{
    if spelled.is_none() && node.tag == DW_TAG_namespace {
        return Some(ANONYMOUS);
    }
    spelled
}

/// Whether entries inside this one may have names of their own scope.
pub(crate) fn may_hold_scopes(node: &Node<'_>) -> bool {
    names_its_members(node) || node.tag == DW_TAG_enumeration_type
}

// Whether the entry's name is a component of the names inside it. The enumerators of an unscoped enumeration take its scope.
fn names_its_members(node: &Node<'_>) -> bool
    ensures { result ≡ names_its_members node.now.tag node.now.enum_class }
{
    match node.tag {
        DW_TAG_namespace
        | DW_TAG_class_type
        | DW_TAG_structure_type
        | DW_TAG_union_type
        | DW_TAG_interface_type => true,
        DW_TAG_enumeration_type => node.enum_class,
        _ => false,
    }
}

/// What an entry gives to C++ names, if the file spells this name for it.
#[tactic(auto, unfolding(index_model::specs::ShardParts::node_facts, index_model::specs::Names::component))]
pub(crate) fn component<'f>(node: &Node<'f>, spelled: Option<&'f [u8]>) -> Option<&'f [u8]>
    ensures { (ss : List Section) (d : Located) → IsNodeOf ss node.now d → option_map (λ t. t.now) result ≡ component (record { entry = d; name = name_with d (option_map (λ t. t.now) spelled.entry) }) }
{
    if names_its_members(node) {
        name_with(node, spelled)
    } else {
        None
    }
}

/// The length of what a member puts before a name: its component and the `::` behind it. The greatest `usize` where it is
/// greater.
pub(crate) fn part_length(component: Option<&[u8]>) -> usize
    ensures { result ≡ min greatest (part_length (option_map (λ t. t.now) component.entry)) }
{
    match component {
        Some(name) => name.len().saturating_add(SEPARATOR.len()),
        None => 0,
    }
}
