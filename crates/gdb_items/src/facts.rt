//! What gdb's rules ask of an entry by itself.

ghost use Rattle.std.specs.Prelude.{◌≡◌, ◌||◌, is_some, option_map};
ghost use Rattle.std.specs.List.{list_any};
ghost use Rattle.index_model.specs.Attributes.{attribute, next_reference};
ghost use Rattle.index_model.specs.ShardParts.{as_next};
ghost use Rattle.gdb_entries.specs.Chains.{facts_of, is_naming, origin_of};

use crate::codes::DW_AT_extension;
use dwarf_codes::attribute::{
    DW_AT_MIPS_linkage_name, DW_AT_abstract_origin, DW_AT_declaration, DW_AT_external,
    DW_AT_linkage_name, DW_AT_name, DW_AT_specification,
};
use entry_scan::Item;
use gdb_entries::ItemFacts;
use index_model::Next;
use shard_build::reference;

/// What the rules ask of an entry.
#[tactic(auto, unfolding(gdb_entries::specs::Chains::facts_of))]
pub(crate) fn facts_of(entry: &Item<'_>) -> ItemFacts
    ensures { result ≡ facts_of entry.now }
{
    ItemFacts {
        tag: entry.tag(),
        children: entry.children(),
        named: is_named(entry),
        declared: entry.is_set(DW_AT_declaration),
        external: entry.is_set(DW_AT_external),
    }
}

// Whether one of its attributes may give it a name, in any form.
fn is_named(entry: &Item<'_>) -> bool
    ensures { result ≡ list_any (λ v. is_naming v.0) entry.now.values }
{
    has_naming(entry)
}

// The same, by the attributes one after the other.
fn has_naming(entry: &Item<'_>) -> bool
    ensures { result ≡ (is_some (attribute 0x03 entry.now) || is_some (attribute 0x6E entry.now) || is_some (attribute 0x2007 entry.now) || is_some (attribute 0x47 entry.now) || is_some (attribute 0x31 entry.now) || is_some (attribute 0x54 entry.now)) }
{
    entry.has(DW_AT_name)
        || entry.has(DW_AT_linkage_name)
        || entry.has(DW_AT_MIPS_linkage_name)
        || entry.has(DW_AT_specification)
        || entry.has(DW_AT_abstract_origin)
        || entry.has(DW_AT_extension)
}

/// The reference to what it is a part or a copy of: its specification, else its abstract origin, else its extension.
pub(crate) fn origin_of(entry: &Item<'_>) -> Option<Next>
    ensures { result ≡ option_map as_next (origin_of entry.now) }
{
    match next_reference(entry) {
        Some(next) => Some(next),
        None => reference(entry, DW_AT_extension),
    }
}

// Its specification, else its abstract origin.
fn next_reference(entry: &Item<'_>) -> Option<Next>
    ensures { result ≡ option_map as_next (next_reference entry.now) }
{
    match reference(entry, DW_AT_specification) {
        Some(next) => Some(next),
        None => reference(entry, DW_AT_abstract_origin),
    }
}
