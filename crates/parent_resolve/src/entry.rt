//! What the references of one entry give.

ghost use Rattle.std.specs.Prelude.{◌≡◌, List, is_some, min, length, true};
ghost use Rattle.index_model.specs.Gives.{GivesFor};
ghost use Rattle.index_model.specs.Links.{facts_of, link_of, name_in};
ghost use Rattle.index_model.specs.Languages.{class_of_unit};
ghost use Rattle.index_model.specs.Meaning.{at_place};
ghost use Rattle.index_model.specs.Names.{Member, qualified_name};
ghost use Rattle.parent_resolve.specs.Followed.{ForEntry, HasEntry};
ghost use Rattle.parent_resolve.specs.EntryLinks.{link_tested, link_with, ForTraced, IsEntryOf, StandsAlways};
ghost use Rattle.parent_resolve.specs.Scopes.{greatest, IsScope};

use crate::paths::Paths;
use crate::scope::{Scope, name_with};
use crate::traced::Traced;
use entry_rules::{Class, Facts, indexed, is_static};
use index_model::{LinkedEntry, Node};
use ix_base::code::NAME_TOO_LONG;
use ix_base::{Fault, MAX_QUALIFIED_NAME, Stop};
use name_forms::ada_length;
use std::alloc::Global;

/// What the references of a visited entry give: its chain, then its signature where its name needs it, then its scope path are
/// followed. None where the entry isn't indexed. A fault has the place of the entry.
pub(crate) fn link_entry<'f>(
    alloc: Global,
    paths: &mut Paths<'_, 'f>,
    node: &Node<'f>,
    class: Class,
) -> Result<Option<LinkedEntry<'f>>, Stop>
    requires { HasEntry paths.old node.now }
    ensures value { ForEntry paths.old node.now (λ p d. class ≡ class_of_unit p d.home → GivesFor (IsEntryOf p) result (at_place d.item.at (link_of p d))) }
    ensures kept { paths.new ≡ paths.old }
{
    let traced = paths.follow(alloc, node, node.offset)?;
    let scope = paths.around(alloc, traced.around, node.offset)?;
    paths.enter(node, &traced, scope)?;
    let entry = entry_of(node, class, &traced, scope)?;
    Ok(entry)
}

// What is said of an entry whose references were followed. The length of its qualified name counts if it is indexed. Takes no
// memory.
fn entry_of<'f>(
    node: &Node<'f>,
    class: Class,
    traced: &Traced<'f>,
    scope: Scope,
) -> Result<Option<LinkedEntry<'f>>, Fault>
    ensures { ForTraced node.now class traced.now (λ p d n. (path : List Member) → IsScope scope path → StandsAlways (IsEntryOf p) result (at_place d.item.at (link_tested p d n path))) }
{
    let Some(name) = name_with(node, traced.spelled) else {
        return Ok(None);
    };
    let facts = facts_of(node, class, traced);
    if !indexed(&facts) {
        return Ok(None);
    }
    let length = qualified_length(class, scope, name);
    if length as u64 > MAX_QUALIFIED_NAME {
        return Err(Fault {
            code: NAME_TOO_LONG,
            at: node.offset,
        });
    }
    Ok(Some(LinkedEntry {
        unit: node.unit,
        tag: facts.tag as u16,
        local: is_static(&facts),
        main: node.main,
        offset: node.offset,
        around: traced.around,
        name,
        linkage: traced.linkage,
        length: length as u32,
    }))
}

// What the rules ask of a visited entry that has a name.
#[tactic(auto, unfolding(index_model::specs::ShardParts::node_facts, index_model::specs::Links::facts_of))]
fn facts_of(node: &Node<'_>, class: Class, traced: &Traced<'_>) -> Facts
    ensures { ForTraced node.now class traced.now (λ p d n. (path : List Member) → is_some (name_in (link_with p d n path)) ≡ true → result ≡ facts_of (link_with p d n path)) }
{
    Facts {
        tag: node.tag,
        class,
        visited: true,
        named: true,
        declaration: node.declaration,
        external: traced.external,
        address: node.address,
        value: node.value,
    }
}

// The length of the qualified name, or the greatest `usize` where it is greater.
#[tactic(auto, unfolding(index_model::specs::Names::qualified_name))]
fn qualified_length(class: Class, scope: Scope, name: &[u8]) -> usize
    ensures { (path : List Member) → IsScope scope path → result ≡ min greatest (length (qualified_name class path name.now)) }
{
    match class {
        Class::C | Class::Plain => name.len(),
        Class::Cxx => scope.length.saturating_add(name.len()),
        Class::Ada => ada_length(name),
    }
}
