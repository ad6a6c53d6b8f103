//! What is kept of the entries.

ghost use Rattle.std.specs.Prelude.{◌≡◌, ◌+◌, ◌<◌, ◌^◌, ◌++◌, ◌∷◌, [], ℕ, length, reverse, OnOk};
ghost use Rattle.index_model.specs.Gives.{Gives};
ghost use Rattle.index_model.specs.Strings.{str};
ghost use Rattle.shard_build.specs.Kept.{has_node, is_visited_in, node_by, nodes_added, with_texts, spans_by, opened_by, imports_by};
ghost use Rattle.shard_build.specs.Texts.{HoldsTexts};

use crate::frame::UnitFacts;
use crate::home::UnitInFile;
use crate::open::{Open, offset_of, role_of};
use crate::text_places::TextPlaces;
use crate::texts::TextOffsets;
use entry_rules::in_table;
use entry_scan::Item;
use index_model::{Import, NodesSoFar, Spans};
use ix_base::{NoMemory, Stop};

/// What is kept of the entries of a run behind some of its tokens.
#[derive(Drop)]
pub(crate) struct ItemsSoFar<'f> {
    // What the root of the unit at hand said.
    pub frame: UnitFacts,
    // Its entries whose children are still to come, the outermost first.
    pub opened: Vec<Open>,
    pub nodes: NodesSoFar<'f>,
    pub spans: Spans,
    pub imports: Vec<Import>,
    // Where texts stand in the file.
    pub places: TextPlaces,
}

// Adds the node of an entry that has one. The texts of others are tested alone.
#[tactic(auto, unfolding(crate::specs::Kept::nodes_by))]
pub(crate) fn add_node<'f>(
    nodes: &mut NodesSoFar<'f>,
    places: &mut TextPlaces,
    home: &UnitInFile<'_, 'f>,
    frame: &UnitFacts,
    outer: Option<Open>,
    visited: bool,
    entry: &Item<'_>,
) -> Result<(), Stop>
    requires texts { HoldsTexts home.now.bytes.now home.now.unit entry.now }
    requires visited { visited ≡ is_visited_in outer frame.now.ada }
    requires strings { nodes.old.strings ≡ str home.now.sections.now }
    ensures value { Gives (λ _. nodes.new.nodes) result (nodes_added home.now.sections.now (home.now.number, home.now.unit) frame.now outer nodes.old.nodes entry.now) }
    ensures strings { OnOk result (nodes.new.strings ≡ nodes.old.strings) }
{
    let base = frame.str_offsets_base;
    if has_node(home, frame, outer, visited, entry) {
        add_node_with_texts(nodes, places, home, base, outer, entry)
    } else {
        Ok(home.test(base, entry)?)
    }
}

// Whether an entry in this one has a node.
#[tactic(auto, unfolding(crate::specs::Kept::has_node))]
fn has_node(
    home: &UnitInFile<'_, '_>,
    frame: &UnitFacts,
    outer: Option<Open>,
    visited: bool,
    item: &Item<'_>,
) -> bool
    requires { visited ≡ is_visited_in outer frame.now.ada }
    ensures { result ≡ has_node home.now.sections.now (home.now.number, home.now.unit) frame.now outer item.now }
{
    item.depth() == 0 || (visited && in_table(item.tag()))
}

// Adds the node of an entry, with its texts.
fn add_node_with_texts<'f>(
    nodes: &mut NodesSoFar<'f>,
    places: &mut TextPlaces,
    home: &UnitInFile<'_, 'f>,
    base: Option<u64>,
    outer: Option<Open>,
    entry: &Item<'_>,
) -> Result<(), Stop>
    requires texts { HoldsTexts home.now.bytes.now home.now.unit entry.now }
    requires strings { nodes.old.strings ≡ str home.now.sections.now }
    ensures value { Gives (λ _. nodes.new.nodes) result (with_texts home.now.sections.now (home.now.number, home.now.unit) base entry.now (λ t. nodes.old.nodes ++ node_by home.now.sections.now (home.now.number, home.now.unit) outer entry.now t ∷ [])) }
    ensures strings { OnOk result (nodes.new.strings ≡ nodes.old.strings) }
{
    let offsets = TextOffsets::of(entry);
    if let Some(small) = home.small_node(offset_of(outer), entry, &offsets) {
        if nodes.push_small(&small)? {
            return Ok(());
        }
    }
    let texts = home.texts_at(base, entry, &offsets)?;
    places.count(&texts)?;
    let node = home.node(outer, entry, texts);
    nodes.push(&node, places.at_offsets(home, base, entry, &offsets))?;
    Ok(())
}

// Adds the import of an imported unit.
pub(crate) fn add_import(
    imports: &mut Vec<Import>,
    home: &UnitInFile<'_, '_>,
    entry: &Item<'_>,
) -> Result<(), NoMemory>
    requires { home.now.unit.start + home.now.unit.length < 2 ^ 63 }
    ensures { OnOk result (imports.new.items ≡ imports.old.items ++ imports_by home.now.sections.now (home.now.number, home.now.unit) entry.now) }
{
    if let Some(import) = home.import(entry) {
        imports.push(import)?;
    }
    Ok(())
}

// Adds the span of an entry with children.
pub(crate) fn add_span(
    spans: &mut Spans,
    home: &UnitInFile<'_, '_>,
    item: &Item<'_>,
) -> Result<(), NoMemory>
    requires { home.now.unit.start + home.now.unit.length < 2 ^ 63 }
    ensures { OnOk result (spans.new ≡ spans.old ++ spans_by home.now.sections.now (home.now.number, home.now.unit) item.now) }
{
    if item.children() {
        spans.push(home.span(item))?;
    }
    Ok(())
}

// An entry with children becomes the innermost one. Its span has this index.
pub(crate) fn open(
    opened: &mut Vec<Open>,
    item: &Item<'_>,
    visited: bool,
    span: usize,
) -> Result<(), NoMemory>
    ensures { OnOk result (reverse opened.new.items ≡ opened_by item.now visited span (reverse opened.old.items)) }
{
    if item.children() {
        opened.push(Open {
            at: item.offset(),
            parent: role_of(item.depth(), item.tag(), visited),
            span,
        })?;
    }
    Ok(())
}
