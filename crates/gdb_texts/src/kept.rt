//! The texts that are spelled beforehand, by their places.

ghost use Rattle.std.specs.Prelude.{◌≡◌, All, IfOk, IfSome, Some};
ghost use Rattle.gdb_entries.specs.Components.{spelled};
ghost use Rattle.gdb_items.specs.Chains.{StandsAt};
ghost use Rattle.gdb_names.specs.Both.{AreBoth};
ghost use Rattle.gdb_texts.specs.Spelled.{names_of, IsKeptFor, IsPlaced};

use crate::places::template_names;
use crate::spelling::Spelling;
use file_image::Sections;
use gdb_entries::LanguageClass;
use gdb_items::ItemText;
use gdb_names::{BothNames, spelled};
use indexmap::IndexMap;
use ix_base::NoMemory;
use rayon::prelude::*;
use std::alloc::{AllocError, Global};
use std::marker::Model;
use std::thread::Threads;

/// C++ names of a file's `.debug_str`, as gdb 13 and gdb 16 spell them. Contracts see the sections of the file.
#[derive(Drop)]
pub struct SpelledTexts<'s, 'f> {
    sections: &'s Sections<'f>,
    // The names, by their places.
    names: IndexMap<u64, BothNames<'f>>,
}

impl<'s, 'f> Model for SpelledTexts<'s, 'f> {
    ghost use Rattle.std.specs.Prelude.{List};
    ghost use Rattle.index_model.specs.Sections.{Section};
    ghost use Rattle.gdb_texts.specs.Spelled.{AllAreSpelled};

    ghost Value = { List Section };

    ghost view = { λ e. e.sections.now };

    ghost invariant = { λ e. AllAreSpelled e.sections.now e.names };
}

impl<'s, 'f> SpelledTexts<'s, 'f> {
    /// No name is spelled beforehand.
    pub fn none(alloc: Global, sections: &'s Sections<'f>) -> SpelledTexts<'s, 'f>
        ensures { result ≡ sections.now }
    {
        SpelledTexts {
            sections,
            names: IndexMap::new(alloc),
        }
    }

    /// Each text with template arguments is spelled, by at most so many threads.
    pub fn new<R: Threads + Sync>(
        rt: &R,
        alloc: Global,
        workers: usize,
        sections: &'s Sections<'f>,
    ) -> Result<SpelledTexts<'s, 'f>, NoMemory>
        ensures { IfOk result (λ texts. texts ≡ sections.now) }
    {
        let places = template_names(alloc, sections.debug_str())?;
        let names = spelled_each(rt, alloc, workers, sections, places.as_slice())?;
        let mut texts = SpelledTexts::none(alloc, sections);
        for name in names {
            texts.keep(name?)?;
        }
        Ok(texts)
    }

    // Keeps one more name.
    fn keep(&mut self, name: PlacedName<'f>) -> Result<(), NoMemory>
        requires { IsPlaced self.old name }
        ensures { self.new ≡ self.old }
    {
        self.names.insert(name.place, name.names)?;
        Ok(())
    }

    /// A name as gdb spells it in a unit of this class. It is taken from those that were spelled beforehand where it is told where in
    /// `.debug_str` it stands, and one was spelled there.
    pub fn spelled(
        &self,
        alloc: Global,
        class: LanguageClass,
        place: Option<u64>,
        name: &'f [u8],
    ) -> Result<Spelling<'_, 'f>, NoMemory>
        ensures { StandsAt self.now place (Some name.now) → IfOk result (λ spelling. AreBoth (λ release. spelled release class name.now) (names_of spelling)) }
    {
        match self.kept(class, place) {
            Some(names) => Ok(Spelling::Kept(names)),
            None => Ok(Spelling::New(spelled(alloc, class, name)?)),
        }
    }

    // The name at a place as it was spelled beforehand, in C++.
    fn kept(&self, class: LanguageClass, place: Option<u64>) -> Option<&BothNames<'f>>
        ensures { IfSome result (λ names. IsKeptFor self.now class place names.now) }
    {
        match (class, place) {
            (LanguageClass::Cxx, Some(place)) => self.names.get(&place),
            _ => None,
        }
    }
}

/// A name as it is spelled in C++.
#[derive(Drop)]
struct PlacedName<'f> {
    /// Where it begins in `.debug_str`.
    place: u64,
    names: BothNames<'f>,
}

impl<'f> PlacedName<'f> {
    // The name that begins at a place.
    fn at(alloc: Global, sections: &Sections<'f>, place: u64) -> Result<PlacedName<'f>, NoMemory>
        ensures { IfOk result (IsPlaced sections.now) }
    {
        let text: &[u8] = match ItemText::InStr(place).bytes(sections) {
            Some(text) => text,
            None => b"",
        };
        let names = spelled(alloc, LanguageClass::Cxx, text)?;
        Ok(PlacedName { place, names })
    }
}

// The name at each of these places, by at most so many threads.
fn spelled_each<'f, R: Threads + Sync>(
    rt: &R,
    alloc: Global,
    workers: usize,
    sections: &Sections<'f>,
    places: &[u64],
) -> Result<Vec<Result<PlacedName<'f>, NoMemory>>, AllocError>
    ensures { IfOk result (λ names. All (λ name. IfOk name (IsPlaced sections.now)) names.items) }
{
    let share = places.len() / workers.max(1) + 1;
    places
        .par_iter()
        .with_min_len(share)
        .map(
            |place: &u64| -> Result<PlacedName, NoMemory>
                ensures { IfOk result (IsPlaced sections.entry.now) }
            { PlacedName::at(alloc, sections, *place) },
        )
        .collect(rt, alloc)
}
