//! What a program with sections added is put together from.

ghost use Rattle.std.specs.Prelude.{◌≡◌, ◌≤◌, ◌+◌, ◌*◌, ℕ, List, length, map, IfOk, OnOk};
ghost use Rattle.index_model.specs.Sections.{Section, table_at};
ghost use Rattle.reach_model.specs.Added.{Addition, added, with_pieces};
ghost use Rattle.reach_model.specs.AddedSections.{HavePlaces};
ghost use Rattle.elf_add.specs.Pieces.{section_of};
ghost use Rattle.elf_add.specs.Parts.{first_name_of, names_moved, pieces_of_names, pieces_of_strings, shares_of, strings_moved, IsPartsOf};

use crate::elf_header::set_table;
use crate::fields::HEADER_LENGTH;
use crate::new_headers::push_new_headers;
use crate::numbers::sum;
use crate::old_headers::{Changes, push_old_headers};
use crate::pieces::{ALIGNMENT, Grown, Moved, NewSection, pad, push_grown, push_pieces};
use ix_base::NoMemory;
use std::alloc::Global;

/// A program, and what is added to it.
#[derive(Clone, Copy)]
pub(crate) struct AddedProgram<'a, 'f> {
    pub(crate) file: &'f [u8],
    /// How many section headers the file has.
    pub(crate) count: u32,
    /// The index of the names' section, and its bytes.
    pub(crate) names_index: u32,
    pub(crate) names: &'f [u8],
    /// The `.debug_str` of the file, where strings are added to it.
    pub(crate) strings: Option<Grown<'f>>,
    /// The sections that are added.
    pub(crate) added: &'a [NewSection<'f>],
}

impl<'f> AddedProgram<'_, 'f> {
    /// The bytes of the program with what is added.
    pub(crate) fn joined(&self, alloc: Global) -> Result<Vec<u8>, NoMemory>
        requires long { 64 ≤ length self.now.file.now }
        requires table { table_at self.now.file.now + 64 * self.now.count ≤ length self.now.file.now }
        requires places { HavePlaces (first_name_of self.now) (map section_of self.now.added.now) }
        ensures { IfOk result (λ bytes. (file : List ℕ) (sections : List Section) (addition : Addition) → IsPartsOf self.now file sections addition → bytes.items ≡ added file sections addition) }
    {
        let count = self.new_count()?;
        let first_name = self.first_name()?;
        let mut bytes = Vec::with_capacity(alloc, self.room())?;
        bytes.extend_from_slice(self.file)?;
        let strings = self.push_strings(&mut bytes)?;
        let strings_end = bytes.len();
        push_pieces(&mut bytes, self.added)?;
        let names = self.push_names(&mut bytes)?;
        pad(&mut bytes)?;
        let headers_at = bytes.len();
        let changes = Changes {
            count,
            names_index: self.names_index,
            strings,
            names,
        };
        push_old_headers(&mut bytes, self.file, self.count as usize, &changes)?;
        push_new_headers(&mut bytes, self.added, first_name, strings_end)?;
        set_table(&mut bytes, headers_at as u64, count, self.names_index);
        Ok(bytes)
    }

    // At least as many bytes as there will be, so that they aren't moved while they grow.
    fn room(&self) -> usize {
        let headers = self.added.len().saturating_add(self.count as usize + 1);
        let mut room = headers
            .saturating_mul(HEADER_LENGTH)
            .saturating_add(self.file.len())
            .saturating_add(self.names.len());
        if let Some(strings) = self.strings {
            room = room
                .saturating_add(strings.bytes.len())
                .saturating_add(strings.more.len());
        }
        for section in self.added {
            // One zero stands behind the name, and up to 7 before the content.
            room = room
                .saturating_add(section.name.len())
                .saturating_add(section.content.len())
                .saturating_add(ALIGNMENT);
        }
        room
    }

    // How many sections there are with those that are added.
    fn new_count(&self) -> Result<u32, NoMemory>
        ensures { IfOk result (λ n. n ≡ self.now.count + length self.now.added.now) }
    {
        let count = sum(self.count as usize, self.added.len())?;
        u32::try_from(count).map_err(|_| NoMemory)
    }

    // Whether the names stand in the `.debug_str` that gets the strings.
    fn shares(&self) -> bool
        ensures { result ≡ shares_of self.now }
    {
        match self.strings {
            Some(strings) => strings.index == self.names_index as usize,
            None => false,
        }
    }

    // Where the names of the added sections begin in the names' section.
    fn first_name(&self) -> Result<usize, NoMemory>
        ensures { IfOk result (λ n. n ≡ first_name_of self.now) }
    {
        match self.strings {
            Some(strings) if self.shares() => sum(self.names.len(), strings.more.len()),
            _ => Ok(self.names.len()),
        }
    }

    // Appends `.debug_str` with the strings, and with the names where they stand there.
    #[tactic(auto, unfolding(reach_model::specs::Added::with_pieces))]
    fn push_strings(&self, bytes: &mut Vec<u8>) -> Result<Option<Moved>, NoMemory>
        ensures bytes { OnOk result (bytes.new.items ≡ with_pieces bytes.old.items (pieces_of_strings self.now)) }
        ensures moved { IfOk result (λ m. m ≡ strings_moved self.now bytes.old.items) }
    {
        let Some(strings) = self.strings else {
            return Ok(None);
        };
        if self.shares() {
            Ok(Some(push_grown(bytes, &strings, self.added)?))
        } else {
            Ok(Some(push_grown(bytes, &strings, &[])?))
        }
    }

    // Appends the names' section with the names of the added sections, unless they stand in `.debug_str`.
    #[tactic(auto, unfolding(reach_model::specs::Added::with_pieces))]
    fn push_names(&self, bytes: &mut Vec<u8>) -> Result<Option<Moved>, NoMemory>
        ensures bytes { OnOk result (bytes.new.items ≡ with_pieces bytes.old.items (pieces_of_names self.now)) }
        ensures moved { IfOk result (λ m. m ≡ names_moved self.now bytes.old.items) }
    {
        if self.shares() {
            return Ok(None);
        }
        let names = Grown {
            index: self.names_index as usize,
            bytes: self.names,
            more: &[],
        };
        Ok(Some(push_grown(bytes, &names, self.added)?))
    }
}
