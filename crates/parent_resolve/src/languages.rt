//! The languages of the units (DWARF 5, sections 3.1.1 and 3.2.5).

ghost use Rattle.std.specs.Prelude.{◌≡◌, map, true, All, IfOk, option_and_then};
ghost use Rattle.std.specs.Arc.{arc_value};
ghost use Rattle.index_model.specs.ShardLanguages.{first_some, importing_in, node_in, IsLanguageAt, NodesRise};
ghost use Rattle.parent_resolve.specs.Importers.{any_takes};

use crate::importers::{importing_languages, takes_importers_language};
use index_model::{Shard, language, root_of, root_offset};
use indexmap::IndexMap;
use ix_base::NoMemory;
use std::alloc::Global;
use std::marker::Model;
use std::sync::Arc;

/// The language code of a unit.
#[derive(Clone, Copy)]
struct UnitLanguage {
    unit: u32,
    language: u16,
}

/// The languages of the units of a file. That of the unit that was asked last is at hand.
#[derive(Drop)]
pub struct Languages<'s, 'f> {
    shards: &'s [Arc<Shard<'f>>],
    // Those of the units that import others, by the joint offsets of what they import.
    importers: IndexMap<u64, u16>,
    last: Option<UnitLanguage>,
}

impl<'s, 'f> Model for Languages<'s, 'f> {
    ghost use Rattle.std.specs.Prelude.{List, map};
    ghost use Rattle.std.specs.Arc.{arc_value};
    ghost use Rattle.std.specs.Option.{ForSome};
    ghost use Rattle.index_model.specs.declared.shard.Shard.{Shard};
    ghost use Rattle.index_model.specs.ShardLanguages.{IsLanguageAt};
    ghost use Rattle.parent_resolve.specs.Importers.{AreImportersOf};

    ghost Value = { List Shard };

    ghost view = { λ c. map arc_value c.shards.now };

    ghost invariant = { λ c. AreImportersOf (map arc_value c.shards.now) c.importers × ForSome c.last (λ u. IsLanguageAt (map arc_value c.shards.now) u.unit u.language) };
}

impl<'s, 'f> Languages<'s, 'f> {
    /// The languages of the units of these shards.
    pub fn new(alloc: Global, shards: &'s [Arc<Shard<'f>>]) -> Result<Languages<'s, 'f>, NoMemory>
        ensures { IfOk result (λ l. l ≡ map arc_value shards.now) }
    {
        let importers = importing_languages(alloc, shards)?;
        Ok(Languages {
            shards,
            importers,
            last: None,
        })
    }

    /// The language code of the unit with this number, 0 where it has none.
    pub fn of(&mut self, unit: u32) -> u16
        ensures value { IsLanguageAt self.old unit result }
        ensures kept { self.new ≡ self.old }
    {
        match self.last {
            Some(last) if last.unit == unit => last.language,
            _ => {
                let language = self.found(unit);
                self.last = Some(UnitLanguage { unit, language });
                language
            }
        }
    }

    // The same of a unit that isn't at hand.
    fn found(&self, unit: u32) -> u16
        ensures { IsLanguageAt self.now unit result }
    {
        match root_of(self.shards, unit) {
            Some(root) if takes_importers_language(&root) => {
                self.importers_language(unit).unwrap_or(0)
            }
            _ => language(self.shards, unit),
        }
    }

    // The language of the unit that imports this one, where some root takes it.
    fn importers_language(&self, unit: u32) -> Option<u16>
        ensures { any_takes self.now ≡ true → All NodesRise self.now → result ≡ option_and_then (λ o. first_some (importing_in o) self.now) (first_some (node_in unit) self.now) }
    {
        let offset = root_offset(self.shards, unit)?;
        self.importers.get(&offset).copied()
    }
}
