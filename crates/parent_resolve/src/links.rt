//! What the references of a shard's entries give (DWARF 5, sections 2.13.2 and 3.3.8).

ghost use Rattle.std.specs.Prelude.{◌≡◌, ◌<◌, [], ◌∷◌, length, map};
ghost use Rattle.std.specs.Arc.{arc_value};
ghost use Rattle.index_model.specs.Rules.{is_ada};
ghost use Rattle.index_model.specs.Gives.{GivesFor};
ghost use Rattle.index_model.specs.Shards.{IsLinked};
ghost use Rattle.index_model.specs.ShardParts.{kept_in};
ghost use Rattle.shard_build.specs.Entries.{AreShardsOfFile};
ghost use Rattle.parent_resolve.specs.Runs.{links_at, AddsLinks, AreLinksOf, ForKept, ForRun, ForStanding, HasRun, IsLinkedNode};
ghost use Rattle.parent_resolve.specs.Followed.{HasEntry};

use crate::classes::class_of;
use crate::entry::link_entry;
use crate::languages::Languages;
use crate::paths::Paths;
use crate::visits::is_visited;
use entry_rules::Class;
use file_image::Image;
use index_model::{Linked, LinkedEntry, List, Node, Shard};
use ix_base::Stop;
use std::alloc::Global;
use std::sync::Arc;

// One in so many nodes is mostly that of an indexed entry, or fewer are. A list that grows from nothing is copied time and again.
const INDEXED: usize = 2;

/// What the references of the visited entries in shard `k` give: for each indexed entry, in section order, its name, its
/// linkage name, whether it is external, and the length of its qualified name in bytes. The shards are those of consecutive
/// runs that make up all units of the image's file.
///
/// Of each visited entry whose tag an index may list, the chain is followed first, then its signature where no entry of the
/// chain has a name, then its scope path. The first entry with a fault counts. The fault has the joint offset of this entry,
/// wherever the reference that is wrong stands: 16 where a reference names no entry, 17 where a chain has more than 8 hops or
/// a scope path more than 1,024 steps, and 24 where the entry is indexed and its qualified name has more than 16 MiB.
pub fn link<'f>(
    alloc: Global,
    image: &Image<'f>,
    shards: &[Arc<Shard<'f>>],
    k: usize,
) -> Result<Linked<'f>, Stop>
    requires of_file { AreShardsOfFile image.now (map arc_value shards.now) }
    requires within { k < length shards.now }
    ensures { ForRun image.now (map arc_value shards.now) k (λ p links. GivesFor (IsLinked p) result links) }
{
    let mut paths = Paths::new(alloc, image, shards)?;
    linked(alloc, &shards[k], shards, &mut paths)
}

// What the references of the shard's entries give.
fn linked<'f>(
    alloc: Global,
    shard: &Shard<'f>,
    shards: &[Arc<Shard<'f>>],
    paths: &mut Paths<'_, 'f>,
) -> Result<Linked<'f>, Stop>
    requires shards { paths.old.shards ≡ map arc_value shards.now }
    requires run { HasRun paths.old shard.now }
    ensures { ForStanding paths.old shard.now (λ p run. GivesFor (IsLinked p) result (links_at p (kept_in run))) }
{
    let mut languages = Languages::new(alloc, shards)?;
    let entries = links_of(alloc, shard, &mut languages, paths)?;
    Ok(Linked {
        entries: List::of(entries),
    })
}

// The entries that are followed and indexed, with what their references give.
fn links_of<'f>(
    alloc: Global,
    shard: &Shard<'f>,
    languages: &mut Languages<'_, 'f>,
    paths: &mut Paths<'_, 'f>,
) -> Result<Vec<LinkedEntry<'f>>, Stop>
    requires shards { paths.old.shards ≡ languages.old }
    requires run { HasRun paths.old shard.now }
    ensures { ForStanding paths.old shard.now (λ p run. GivesFor (λ v. AreLinksOf p v.items) result (links_at p (kept_in run))) }
{
    let mut entries = Vec::with_capacity(alloc, shard.nodes.len() / INDEXED)?;
    for k in 0..shard.nodes.len() {
        if paths.passes(&shard.nodes, k) {
            continue;
        }
        // A node is read where it stands: to move it would cost as much as to make it.
        if let Some(node) = &shard.nodes.get(k) {
            add_link(alloc, shard, languages, paths, node, &mut entries)?;
        }
    }
    Ok(entries)
}

// Adds what the references of a node's entry give.
fn add_link<'f>(
    alloc: Global,
    shard: &Shard<'f>,
    languages: &mut Languages<'_, 'f>,
    paths: &mut Paths<'_, 'f>,
    node: &Node<'f>,
    entries: &mut Vec<LinkedEntry<'f>>,
) -> Result<(), Stop>
    requires shards { paths.old.shards ≡ languages.old }
    requires entry { HasEntry paths.old node.now }
    ensures value { ForKept paths.old shard.now node.now (λ p d. GivesFor (λ _. AddsLinks p entries.old.items entries.new.items) result (links_at p (d ∷ []))) }
    ensures languages { languages.new ≡ languages.old }
    ensures paths { paths.new ≡ paths.old }
{
    if let Some(entry) = link_node(alloc, shard, languages, paths, node)? {
        entries.push(entry)?;
    }
    Ok(())
}

// What the references of a node's entry give, if they are followed and the entry is indexed.
fn link_node<'f>(
    alloc: Global,
    shard: &Shard<'f>,
    languages: &mut Languages<'_, 'f>,
    paths: &mut Paths<'_, 'f>,
    node: &Node<'f>,
) -> Result<Option<LinkedEntry<'f>>, Stop>
    requires { HasEntry paths.old node.now }
    ensures value { paths.old.shards ≡ languages.old → ForKept paths.old shard.now node.now (λ p d. GivesFor (IsLinkedNode p) result (links_at p (d ∷ []))) }
    ensures languages { languages.new ≡ languages.old }
    ensures paths { paths.new ≡ paths.old }
{
    let class = class_of(languages, node.unit);
    if !is_visited(shard, node, is_ada(class)) {
        return Ok(None);
    }
    link_entry(alloc, paths, node, class)
}

fn is_ada(class: Class) -> bool
    ensures { result ≡ is_ada class }
{
    matches!(class, Class::Ada)
}
