//! The main program (DWARF 5, section 3.3.1).

ghost use Rattle.std.specs.Prelude.{◌≡◌, ◌==◌, not, filter, find, map, IfOk, Some};
ghost use Rattle.std.specs.Arc.{arc_value};
ghost use Rattle.index_model.specs.Languages.{language_of};
ghost use Rattle.index_model.specs.Links.{qualified_of};
ghost use Rattle.index_model.specs.MainProgram.{main_in, main_of};
ghost use Rattle.qualified_names.specs.Files.{all_linked, AreLinkedOfFile, ForLinks};
ghost use Rattle.qualified_names.specs.Indexed.{ForLink, HasLink};
ghost use Rattle.qualified_names.specs.Sought.{ForAllCounted, is_main_by, IsFound};

use crate::names::QualifiedNames;
use crate::sought::MainBy;
use entry_rules::{Class, class};
use file_image::Image;
use index_model::{Linked, LinkedEntry, Main, Shard, Text};
use ix_base::NoMemory;
use parent_resolve::Languages;
use std::alloc::Global;
use std::sync::Arc;

/// The main program, None where the file has none: of the indexed entries whose unit has a language other than 0 the first that
/// says itself that it is main, else the first subprogram of C or C++ that isn't static and has the qualified name `main`. The
/// shards are those of consecutive runs that make up all units of the image's file, and the links are what the references of
/// these runs give.
pub fn main_of<'f>(
    alloc: Global,
    image: &Image<'f>,
    shards: &[Arc<Shard<'f>>],
    linked: &[Arc<Linked<'f>>],
) -> Result<Option<Main<'f>>, NoMemory>
    requires { AreLinkedOfFile image.now (map arc_value shards.now) (map arc_value linked.now) }
    ensures { ForLinks image.now (λ p ks. IfOk result (λ m. m ≡ main_of p ks)) }
{
    let mut languages = Languages::new(alloc, shards)?;
    let Some(found) = main_entry(&mut languages, linked) else {
        return Ok(None);
    };
    let language = languages.of(found.unit);
    let name = name_of(alloc, image, shards, &found, class(language))?;
    Ok(Some(Main { language, name }))
}

// The qualified name of an indexed entry, in a unit of this class.
fn name_of<'f>(
    alloc: Global,
    image: &Image<'f>,
    shards: &[Arc<Shard<'f>>],
    entry: &LinkedEntry<'f>,
    class: Class,
) -> Result<Text<'f>, NoMemory>
    requires { HasLink (record { image = image.now; shards = map arc_value shards.now }) entry.now }
    ensures { ForLink (record { image = image.now; shards = map arc_value shards.now }) entry.now (λ p k. class ≡ k.class → IfOk result (λ t. qualified_of k ≡ Some t)) }
{
    let mut names = QualifiedNames::new(alloc, image, shards)?;
    names.qualified(alloc, entry, class)
}

// The entry of the main program.
fn main_entry<'f>(
    languages: &mut Languages<'_, 'f>,
    linked: &[Arc<Linked<'f>>],
) -> Option<LinkedEntry<'f>>
    ensures value { ForAllCounted languages.old (all_linked (map arc_value linked.now)) (λ p ks. IsFound p result (main_in (filter (λ k. not (language_of p k.entry.home == 0)) ks))) }
    ensures kept { languages.new ≡ languages.old }
{
    match first_main(languages, linked, MainBy::Said) {
        Some(found) => Some(found),
        None => first_main(languages, linked, MainBy::Named),
    }
}

// The first entry that is told to be main in this way.
fn first_main<'f>(
    languages: &mut Languages<'_, 'f>,
    linked: &[Arc<Linked<'f>>],
    sought: MainBy,
) -> Option<LinkedEntry<'f>>
    ensures value { ForAllCounted languages.old (all_linked (map arc_value linked.now)) (λ p ks. IsFound p result (find (is_main_by p sought) ks)) }
    ensures kept { languages.new ≡ languages.old }
{
    for links in linked {
        if let Some(found) = first_main_in(languages, links.entries.as_slice(), sought) {
            return Some(found);
        }
    }
    None
}

// The first of these that is told so.
fn first_main_in<'f>(
    languages: &mut Languages<'_, 'f>,
    entries: &[LinkedEntry<'f>],
    sought: MainBy,
) -> Option<LinkedEntry<'f>>
    ensures value { ForAllCounted languages.old entries.now (λ p ks. IsFound p result (find (is_main_by p sought) ks)) }
    ensures kept { languages.new ≡ languages.old }
{
    for entry in entries {
        if sought.tells(languages, entry) {
            return Some(*entry);
        }
    }
    None
}
