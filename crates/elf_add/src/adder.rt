//! The adder.

ghost use Rattle.std.specs.Prelude.{◌≡◌, ◌≤◌, ◌==◌, false, [], Err, bytes_eq, ◌++◌, length, map, option_map, unwrap_or, IfOk};
ghost use Rattle.std.specs.List.{list_any, AllByRecursion as AllOf};
ghost use Rattle.ix_base.specs.declared.or_memory.OrMemory.TheVariants as stops;
ghost use Rattle.index_model.specs.Gives.{Gives};
ghost use Rattle.index_model.specs.Sections.{section_bytes};
ghost use Rattle.reach_model.specs.Added.{added, debug_str, names_start, new_sections, strings_alone, strings_index};
ghost use Rattle.reach_model.specs.AddedSections.{HavePlaces};
ghost use Rattle.elf_add.specs.Adders.{adder_of, has_section, is_full, with_section, with_strings, AddsAs};
ghost use Rattle.elf_add.specs.Held.{is_alone};
ghost use Rattle.elf_add.specs.Parts.{IsStrings};
ghost use Rattle.elf_add.specs.Pieces.{section_of};

use crate::names::name_bytes;
use crate::parts::AddedProgram;
use crate::pieces::{Grown, NewSection};
use file_image::{SectionTable, Sections};
use ix_base::{MAX_FILE_BYTES, NoMemory, OrMemory, Stop};
use std::alloc::Global;
use std::marker::Model;

/// Why there is no room for what is to be added.
#[derive(Clone, Copy)]
pub enum NoRoom {
    /// There is a section of this name, or strings were added before.
    Present,
    /// There would be more than 65,279 sections; from FF00 on their indexes are reserved.
    TooMany,
}

/// Adds sections to a program file. Contracts see the file, its sections, and what is to be added. All bytes are borrowed.
#[derive(Drop)]
pub struct Adder<'f> {
    alloc: Global,
    file: &'f [u8],
    sections: Sections<'f>,
    table: SectionTable<'f>,
    added: Vec<NewSection<'f>>,
    strings: Option<&'f [u8]>,
}

impl<'f> Model for Adder<'f> {
    ghost use Rattle.std.specs.Prelude.{option_map};
    ghost use Rattle.elf_add.specs.Adders.{Adder};
    ghost use Rattle.elf_add.specs.Held.{adder_with, Holds};

    ghost Value = { Adder };

    ghost view = { λ a. adder_with a.file.now a.sections a.added.items (option_map (λ s. s.now) a.strings) };

    ghost invariant = { λ a. Holds a.file.now a.sections a.table a.added.items };
}

const DEBUG_STR: &[u8] = b".debug_str";

const MOST_SECTIONS: usize = 65_279;

impl<'f> Adder<'f> {
    /// An adder for a file, to which nothing is to be added yet; or the first fault of its sections, as `Sections::open` tells it.
    pub fn new(alloc: Global, file: &'f [u8]) -> Result<Adder<'f>, Stop>
        requires { length file.now ≤ MAX_FILE_BYTES }
        ensures { Gives (λ a. a) result (adder_of file.now) }
    {
        let sections = Sections::open(alloc, file)?;
        let table = SectionTable::open(file)?;
        Ok(Adder {
            alloc,
            file,
            sections,
            table,
            added: Vec::new(alloc),
            strings: None,
        })
    }

    /// One more section, of type 1 and alignment 4. Present exactly where the file or the adder has a section of this name, and else
    /// TooMany exactly where there would be more than 65,279 sections. After a stop the adder is unchanged.
    pub fn section(&mut self, name: &'f [u8], bytes: &'f [u8]) -> Result<(), OrMemory<NoRoom>>
        requires ended { AllOf (λ b. (b == 0) ≡ false) name.now }
        requires other { bytes_eq name.now debug_str ≡ false }
        ensures { AddsAs result self.old self.new (with_section self.old name.now bytes.now) }
    {
        if self.has(name) {
            return Err(OrMemory::Cause(NoRoom::Present));
        }
        if self.is_full() {
            return Err(OrMemory::Cause(NoRoom::TooMany));
        }
        match self.added.push(NewSection {
            name,
            content: bytes,
        }) {
            Ok(()) => Ok(()),
            Err(_) => Err(OrMemory::Memory),
        }
    }

    /// Bytes behind those of `.debug_str`, which is added as the last section where the file has none. Present exactly where this
    /// adder has such bytes, and else TooMany exactly where the section must be added and there would be more than 65,279. Takes no
    /// memory.
    pub fn extend(&mut self, bytes: &'f [u8]) -> Result<(), OrMemory<NoRoom>>
        ensures adds { AddsAs result self.old self.new (with_strings self.old bytes.now) }
        ensures memory { result ≡ Err stops.Memory → ⊥ }
    {
        if self.strings.is_some() {
            return Err(OrMemory::Cause(NoRoom::Present));
        }
        if self.sections.index_of(DEBUG_STR).is_none() && self.is_full() {
            return Err(OrMemory::Cause(NoRoom::TooMany));
        }
        self.strings = Some(bytes);
        Ok(())
    }

    /// The file with what was added. The place of each added name in the names' section has four bytes.
    pub fn finish(self) -> Result<Vec<u8>, NoMemory>
        requires { HavePlaces (names_start self.file self.sections self.addition) (new_sections self.file self.sections self.addition) }
        ensures { IfOk result (λ bytes. bytes.items ≡ added self.entry.file self.entry.sections self.entry.addition) }
    {
        let strings = self.grown_strings();
        let added = all_added(self.added, &strings, self.strings)?;
        let parts = AddedProgram {
            file: self.file,
            count: self.table.count(),
            names_index: self.table.names(),
            names: name_bytes(self.file, &self.table),
            strings,
            added: &added,
        };
        parts.joined(self.alloc)
    }

    // Whether the file or the adder has a section of this name.
    fn has(&self, name: &[u8]) -> bool
        ensures { result ≡ has_section self.now name.now }
    {
        self.sections.index_of(name).is_some() || has_name(&self.added, name)
    }

    // Whether there is no room for one more section.
    fn is_full(&self) -> bool
        ensures { result ≡ is_full self.now }
    {
        let alone = if self.is_alone() { 1 } else { 0 };
        self.table.count() as usize + self.added.len() + alone + 1 > MOST_SECTIONS
    }

    // Whether strings are added to a file that has no `.debug_str`.
    fn is_alone(&self) -> bool
        ensures { result ≡ is_alone self.now }
    {
        self.strings.is_some() && self.sections.index_of(DEBUG_STR).is_none()
    }

    // The `.debug_str` of the file, where strings are added to it.
    #[tactic(auto, unfolding(reach_model::specs::Added::strings_index))]
    fn grown_strings(&self) -> Option<Grown<'f>>
        ensures index { option_map (λ g. g.index) result ≡ strings_index self.now.file self.now.sections self.now.addition }
        ensures strings { IsStrings (section_bytes self.now.sections debug_str) (unwrap_or self.now.addition.strings []) result }
    {
        let more = self.strings?;
        let index = self.sections.index_of(DEBUG_STR)?;
        Some(Grown {
            index,
            bytes: self.sections.get(DEBUG_STR),
            more,
        })
    }
}

// The sections that are added, and a `.debug_str` with the strings where none is grown.
fn all_added<'f>(
    mut added: Vec<NewSection<'f>>,
    grown: &Option<Grown<'f>>,
    strings: Option<&'f [u8]>,
) -> Result<Vec<NewSection<'f>>, NoMemory>
    ensures { IfOk result (λ v. map section_of v.items ≡ map section_of added.entry.items ++ strings_alone (option_map (λ g. g.index) grown.now) (option_map (λ s. s.now) strings.entry)) }
{
    if let (None, Some(content)) = (grown, strings) {
        added.push(NewSection {
            name: DEBUG_STR,
            content,
        })?;
    }
    Ok(added)
}

// Whether a section of this name is among these.
fn has_name(sections: &[NewSection<'_>], name: &[u8]) -> bool
    ensures { result ≡ list_any (λ s. bytes_eq s.name.now name.now) sections.now }
{
    sections.iter().any(|section| section.name == name)
}
