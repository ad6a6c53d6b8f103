//! The languages of the units that import others (DWARF 5, section 3.2.5).
//!
//! A partial unit without a language has that of the first unit that imports it. There may be as many such units as imports, so
//! the imports are gone through once, and not for each of them.

ghost use Rattle.std.specs.Prelude.{◌≡◌, map, IfOk, OnOk, option_and_then};
ghost use Rattle.std.specs.Arc.{arc_value};
ghost use Rattle.std.specs.List.{list_any};
ghost use Rattle.index_model.specs.ShardLanguages.{imported_from, importing_in, root_in};
ghost use Rattle.parent_resolve.specs.Importers.{any_takes_in, takes_importers_language, Adds, AreImportersOf, HasImporters};

use index_model::{Import, Root, Shard, root_in};
use indexmap::IndexMap;
use ix_base::NoMemory;
use std::alloc::Global;
use std::sync::Arc;

/// Of each joint offset that a unit with a language of its own imports, the language of the first such unit. It is empty where
/// no root takes the language of an importer: then it isn't asked.
pub(crate) fn importing_languages(
    alloc: Global,
    shards: &[Arc<Shard<'_>>],
) -> Result<IndexMap<u64, u16>, NoMemory>
    ensures { IfOk result (AreImportersOf (map arc_value shards.now)) }
{
    if any_takes(shards) {
        languages_of(alloc, shards)
    } else {
        Ok(IndexMap::new(alloc))
    }
}

/// Whether a root is that of a partial unit and has no language itself.
pub(crate) fn takes_importers_language(root: &Root) -> bool
    ensures { result ≡ takes_importers_language root.now }
{
    root.partial && root.language.is_none()
}

// Whether some root is so.
fn any_takes(shards: &[Arc<Shard<'_>>]) -> bool
    ensures { result ≡ list_any (λ s. any_takes_in (arc_value s)) shards.now }
{
    shards.iter().any(|shard| any_takes_in(shard))
}

// Whether some root of a shard is so.
fn any_takes_in(shard: &Shard<'_>) -> bool
    ensures { result ≡ any_takes_in shard.now }
{
    shard
        .roots
        .as_slice()
        .iter()
        .any(|root| takes_importers_language(root))
}

// The languages of all importers.
fn languages_of(alloc: Global, shards: &[Arc<Shard<'_>>]) -> Result<IndexMap<u64, u16>, NoMemory>
    ensures { IfOk result (HasImporters (map arc_value shards.now)) }
{
    let mut languages = IndexMap::new(alloc);
    for shard in shards {
        add_importers(&mut languages, shard)?;
    }
    Ok(languages)
}

// Adds those of a shard's importers.
fn add_importers(languages: &mut IndexMap<u64, u16>, shard: &Shard<'_>) -> Result<(), NoMemory>
    ensures { OnOk result (Adds (λ offset. importing_in offset shard.now) languages.old languages.new) }
{
    for import in shard.imports.as_slice() {
        add_importer(languages, shard, import)?;
    }
    Ok(())
}

// Adds that of an importer, if it has one itself and none is there yet.
fn add_importer(
    languages: &mut IndexMap<u64, u16>,
    shard: &Shard<'_>,
    import: &Import,
) -> Result<(), NoMemory>
    ensures { OnOk result (Adds (λ offset. imported_from shard.now offset import.now) languages.old languages.new) }
{
    let Some(language) = own_language(shard, import.unit) else {
        return Ok(());
    };
    if !languages.contains_key(&import.target) {
        languages.insert(import.target, language)?;
    }
    Ok(())
}

// The language that a unit of the shard has itself.
fn own_language(shard: &Shard<'_>, unit: u32) -> Option<u16>
    ensures { result ≡ option_and_then (λ r. r.language) (root_in unit shard.now) }
{
    root_in(shard, unit)?.language
}
