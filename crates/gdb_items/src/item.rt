//! An item as gdb's rules ask of it.

ghost use Rattle.std.specs.Prelude.{◌≡◌, ◌+◌, ◌<◌, ◌^◌, option_map, option_and_then, Ok};
ghost use Rattle.index_model.specs.Attributes.{has_enum_class};
ghost use Rattle.index_model.specs.ShardParts.{as_next};
ghost use Rattle.index_model.specs.Strings.{Texts as TextsMeant};
ghost use Rattle.shard_build.specs.Kept.{target_by};
ghost use Rattle.shard_build.specs.Texts.{texts_by, HoldsTexts};
ghost use Rattle.gdb_entries.specs.Chains.{facts_of, origin_of};
ghost use Rattle.gdb_items.specs.Texts.{texts_told};

use crate::facts::{facts_of, origin_of};
use crate::text::{ItemText, UnreadTexts};
use dwarf_codes::attribute::DW_AT_enum_class;
use entry_scan::Item;
use gdb_entries::ItemFacts;
use shard_build::UnitInFile;

/// An item as gdb's rules ask of it.
#[derive(Clone, Copy)]
pub struct UnitItem<'f> {
    /// Its joint offset.
    pub offset: u64,
    /// Its depth, at most 1,024. The root has depth 0.
    pub depth: u32,
    pub facts: ItemFacts,
    /// Whether it is a scoped enumeration (DWARF 5, section 5.7).
    pub scoped: bool,
    /// The joint offset that its specification, else its abstract origin, else its extension names, if it names one (DWARF 5,
    /// sections 2.13.2, 3.3.8.1 and 3.2.2). Nothing says that an item begins there.
    pub origin: Option<u64>,
    /// Its own name.
    pub name: ItemText<'f>,
    /// Its own linkage name.
    pub linkage: ItemText<'f>,
}

impl<'f> UnitItem<'f> {
    /// The item of an entry without a fault, whose unit's part of `.debug_str_offsets` begins at the base.
    pub(crate) fn of(home: &UnitInFile<'_, 'f>, base: Option<u64>, entry: &Item<'_>) -> UnitItem<'f>
        requires texts { HoldsTexts home.now.bytes.now home.now.unit entry.now }
        requires sound { (t : TextsMeant) × (texts_by home.now.sections.now base home.now.unit.wide entry.now ≡ Ok t) }
        requires ends { home.now.unit.start + home.now.unit.length < 2 ^ 63 }
        ensures offset { result.offset ≡ entry.now.at }
        ensures depth { result.depth ≡ entry.now.depth }
        ensures facts { result.facts ≡ facts_of entry.now }
        ensures scoped { result.scoped ≡ has_enum_class entry.now }
        ensures origin { result.origin ≡ option_and_then (target_by home.now.sections.now (home.now.number, home.now.unit)) (option_map as_next (origin_of entry.now)) }
        ensures texts { (t : TextsMeant) → texts_by home.now.sections.now base home.now.unit.wide entry.now ≡ Ok t → texts_told home.now.sections.now result.name result.linkage ≡ t }
    {
        let texts = UnreadTexts::of(home, base, entry);
        UnitItem {
            offset: entry.offset(),
            depth: entry.depth(),
            facts: facts_of(entry),
            scoped: entry.is_set(DW_AT_enum_class),
            origin: origin(home, entry),
            name: texts.name,
            linkage: texts.linkage,
        }
    }
}

// The joint offset that its reference names.
fn origin(home: &UnitInFile<'_, '_>, entry: &Item<'_>) -> Option<u64>
    requires { home.now.unit.start + home.now.unit.length < 2 ^ 63 }
    ensures { result ≡ option_and_then (target_by home.now.sections.now (home.now.number, home.now.unit)) (option_map as_next (origin_of entry.now)) }
{
    match origin_of(entry) {
        Some(reference) => home.target(reference),
        None => None,
    }
}
