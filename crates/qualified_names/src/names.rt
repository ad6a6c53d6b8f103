//! The qualified names of indexed entries (DWARF 5, section 2.13.2).

ghost use Rattle.std.specs.Prelude.{◌≡◌, ◌++◌, map, option_map, IfOk, Some};
ghost use Rattle.std.specs.Arc.{arc_value};
ghost use Rattle.index_model.specs.ShardLanguages.{IsLanguageAt};
ghost use Rattle.index_model.specs.Links.{name_in, qualified_of};
ghost use Rattle.index_model.specs.Names.{scoped_name};
ghost use Rattle.shard_build.specs.Entries.{AreShardsOfFile};
ghost use Rattle.qualified_names.specs.Indexed.{ForLink, HasLink};

use crate::fronts::{Around, Fronts};
use crate::links::go_around;
use entry_rules::Class;
use file_image::Image;
use index_model::{LinkedEntry, Shard, Text};
use ix_base::NoMemory;
use name_forms::ada;
use parent_resolve::{Languages, References};
use std::alloc::Global;
use std::marker::Model;
use std::sync::Arc;

/// The names of a file's entries, and the languages of its units. What stands before the name of the C++ entry that was
/// named last is at hand, and what stood before others is kept.
#[derive(Drop)]
pub(crate) struct QualifiedNames<'s, 'f> {
    references: References<'s, 'f>,
    languages: Languages<'s, 'f>,
    around: Around,
    fronts: Fronts,
}

impl<'s, 'f> Model for QualifiedNames<'s, 'f> {
    ghost use Rattle.std.specs.Prelude.{◌≡◌};
    ghost use Rattle.shard_build.specs.Entries.{EntriesOf};
    ghost use Rattle.qualified_names.specs.Fronts.{AreFronts};
    ghost use Rattle.qualified_names.specs.Paths.{IsFrontAround};

    ghost Value = { EntriesOf };

    ghost view = { λ n. n.references };

    ghost invariant = { λ n. (n.languages ≡ n.references.shards) × IsFrontAround n.references n.around.parent n.around.front.items × AreFronts n.references n.fronts.kept.items };
}

impl<'s, 'f> QualifiedNames<'s, 'f> {
    /// The names of a file's entries. The shards are those of consecutive runs that make up all its units.
    pub(crate) fn new(
        alloc: Global,
        image: &'s Image<'f>,
        shards: &'s [Arc<Shard<'f>>],
    ) -> Result<QualifiedNames<'s, 'f>, NoMemory>
        requires { AreShardsOfFile image.now (map arc_value shards.now) }
        ensures { IfOk result (λ n. n ≡ record { image = image.now; shards = map arc_value shards.now }) }
    {
        Ok(QualifiedNames {
            references: References::new(alloc, image, shards)?,
            languages: Languages::new(alloc, shards)?,
            around: Around {
                parent: None,
                front: Vec::new(alloc),
            },
            fronts: Fronts::new(alloc)?,
        })
    }

    /// The language code of the unit with this number, 0 where it has none.
    pub(crate) fn language(&mut self, unit: u32) -> u16
        ensures value { IsLanguageAt self.old.shards unit result }
        ensures kept { self.new ≡ self.old }
    {
        self.languages.of(unit)
    }

    /// The qualified name of an indexed entry, in a unit of this class. Where it is as long as the entry's own name, it is
    /// that name.
    pub(crate) fn qualified(
        &mut self,
        alloc: Global,
        entry: &LinkedEntry<'f>,
        class: Class,
    ) -> Result<Text<'f>, NoMemory>
        requires { HasLink self.old entry.now }
        ensures value { ForLink self.old entry.now (λ p k. class ≡ k.class → IfOk result (λ t. qualified_of k ≡ Some t)) }
        ensures kept { self.new ≡ self.old }
    {
        if entry.length as usize == entry.name.len() {
            return Ok(Text::lent(entry.name));
        }
        match class {
            Class::Ada => Ok(Text::owned(ada(alloc, entry.name)?)),
            // Of the others only C++ changes names.
            _ => Ok(Text::owned(self.scoped(alloc, entry)?)),
        }
    }

    // The name behind the components of its scope.
    fn scoped(&mut self, alloc: Global, entry: &LinkedEntry<'f>) -> Result<Vec<u8>, NoMemory>
        requires { HasLink self.old entry.now }
        ensures value { ForLink self.old entry.now (λ p k. IfOk result (λ v. option_map (scoped_name k.path) (name_in k) ≡ Some v.items)) }
        ensures kept { self.new ≡ self.old }
    {
        go_around(
            &mut self.around,
            &mut self.fronts,
            &mut self.references,
            alloc,
            entry,
        )?;
        behind(alloc, self.around.front.as_slice(), entry.name)
    }
}

// The name behind what stands before it.
fn behind(alloc: Global, front: &[u8], name: &[u8]) -> Result<Vec<u8>, NoMemory>
    ensures { IfOk result (λ v. v.items ≡ front.now ++ name.now) }
{
    let mut text = Vec::with_capacity(alloc, front.len().saturating_add(name.len()))?;
    text.extend_from_slice(front)?;
    text.extend_from_slice(name)?;
    Ok(text)
}
