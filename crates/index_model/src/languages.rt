//! The language of a unit, by what shards keep of roots and imports (DWARF 5, sections 3.1.1 and 3.2.5).

ghost use Rattle.std.specs.Prelude.{◌≡◌, map, All};
ghost use Rattle.std.specs.Arc.{arc_value};
ghost use Rattle.std.specs.List.Sorted.{IsNonDecreasingBy};
ghost use Rattle.index_model.specs.ShardLanguages.{first_node, first_some, imported_from, importing_in, language_by_root, node_in, root_in, IsLanguageAt, NodesRise};

use crate::nodes::Nodes;
use crate::shard::{Import, Root, Shard};
use std::sync::Arc;

/// The language code of the unit with this number (DWARF 5, section 7.12), at most 65,535: that of its root. The root of a
/// partial unit without one has the language of the first unit in section order that has one itself and imports the partial
/// unit. In other cases it is 0. The shards are those of consecutive runs that make up all units of a file.
pub fn language(shards: &[Arc<Shard<'_>>], unit: u32) -> u16
    ensures { IsLanguageAt (map arc_value shards.now) unit result }
{
    match root_of(shards, unit) {
        Some(root) => language_by_root(shards, unit, root).unwrap_or(0),
        None => 0,
    }
}

// The language of a root, or of the unit that imports it.
fn language_by_root(shards: &[Arc<Shard<'_>>], unit: u32, root: Root) -> Option<u16>
    ensures { All NodesRise (map arc_value shards.now) → result ≡ language_by_root (map arc_value shards.now) unit root }
{
    if root.language.is_some() || !root.partial {
        return root.language;
    }
    importing_language(shards, root_offset(shards, unit)?)
}

/// The root of the unit with this number.
pub fn root_of(shards: &[Arc<Shard<'_>>], unit: u32) -> Option<Root>
    ensures { result ≡ first_some (root_in unit) (map arc_value shards.now) }
{
    for shard in shards {
        if let Some(root) = root_in(shard, unit) {
            return Some(root);
        }
    }
    None
}

/// The joint offset of the first node that isn't before the unit with this number, where the nodes stand in the order of their
/// units. If the unit has a root this is the root's.
pub fn root_offset(shards: &[Arc<Shard<'_>>], unit: u32) -> Option<u64>
    ensures { All NodesRise (map arc_value shards.now) → result ≡ first_some (node_in unit) (map arc_value shards.now) }
{
    for shard in shards {
        if let Some(offset) = first_node(&shard.nodes, unit) {
            return Some(offset);
        }
    }
    None
}

// The language of the first unit that has one itself and imports the entry at the offset.
fn importing_language(shards: &[Arc<Shard<'_>>], offset: u64) -> Option<u16>
    ensures { result ≡ first_some (importing_in offset) (map arc_value shards.now) }
{
    for shard in shards {
        if let Some(language) = importing_in(shard, offset) {
            return Some(language);
        }
    }
    None
}

/// The root of the unit with this number, if the unit is one of the shard's run. The number of a shard without units says nothing.
pub fn root_in(shard: &Shard<'_>, unit: u32) -> Option<Root>
    ensures { result ≡ root_in unit shard.now }
{
    let place = unit.checked_sub(shard.first)?;
    shard.roots.as_slice().get(place as usize).copied()
}

// The offset of the first node of the unit or of one behind it.
fn first_node(nodes: &Nodes<'_>, unit: u32) -> Option<u64>
    ensures { IsNonDecreasingBy (λ n. n.facts.unit) nodes.now → result ≡ first_node unit nodes.now }
{
    nodes.offset_at(nodes.count_of_units_before(unit))
}

// The language of the shard's first unit that has one itself and imports the entry at the offset.
fn importing_in(shard: &Shard<'_>, offset: u64) -> Option<u16>
    ensures { result ≡ importing_in offset shard.now }
{
    for import in shard.imports.as_slice() {
        if let Some(language) = imported_from(shard, offset, import) {
            return Some(language);
        }
    }
    None
}

// The language that the importing unit itself has, where the import names the offset.
fn imported_from(shard: &Shard<'_>, offset: u64, import: &Import) -> Option<u16>
    ensures { result ≡ imported_from shard.now offset import.now }
{
    if import.target != offset {
        return None;
    }
    root_in(shard, import.unit)?.language
}
