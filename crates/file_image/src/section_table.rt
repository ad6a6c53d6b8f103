//! The table of section headers of a program file, header by header (System V gABI, chapter 4, "Sections").

ghost use Rattle.std.specs.Prelude.{◌≡◌, ◌<◌, ◌≤◌, length, MatchOption};
ghost use Rattle.index_model.specs.Gives.{GivesAlways};
ghost use Rattle.index_model.specs.Sections.{names_index, section_count};
ghost use Rattle.file_image.specs.Headers.{section_header_at, with_table};

use crate::found::table_fault;
use crate::ident::check_ident;
use crate::section_header::Header;
use crate::table::{SectionHeaders, index_of_names};
use ix_base::{Fault, MAX_FILE_BYTES};
use std::marker::Model;

/// The table of section headers of a program file. Contracts see the file. No call takes memory.
#[derive(Drop)]
pub struct SectionTable<'f> {
    file: &'f [u8],
    table: SectionHeaders<'f>,
}

impl<'f> Model for SectionTable<'f> {
    ghost use Rattle.std.specs.Prelude.{ℕ, List};
    ghost use Rattle.file_image.specs.Headers.{IsTableOf};

    ghost Value = { List ℕ };

    ghost view = { λ t. t.file.now };

    ghost invariant = { λ t. IsTableOf t.file.now t.table.headers.now t.table.count t.table.names.now };
}

impl<'f> SectionTable<'f> {
    /// The table of a file, or the first fault: it isn't an ELF file of 64 bits with the lowest byte first that is an executable or
    /// a shared object, or the table or the section of the names leaves the file. The place of a fault is a byte of the file, or 0.
    #[tactic(auto, unfolding(crate::specs::Headers::with_table))]
    pub fn open(file: &'f [u8]) -> Result<SectionTable<'f>, Fault>
        requires { length file.now ≤ MAX_FILE_BYTES }
        ensures { GivesAlways (λ t. t) result (with_table file.now) }
    {
        check_ident(file)?;
        match SectionHeaders::open(file) {
            Some(table) => Ok(SectionTable { file, table }),
            None => Err(table_fault(0)),
        }
    }

    /// How many sections there are, section 0 among them.
    pub fn count(&self) -> u32
        ensures { result ≡ section_count self.now }
    {
        self.table.count as u32
    }

    /// The index of the section that holds the names.
    pub fn names(&self) -> u32
        ensures value { result ≡ names_index self.now }
        ensures inside { result < section_count self.now }
    {
        index_of_names(self.file, &self.table.header(0))
    }

    /// The header of the section with this index; None exactly where there is no such section.
    pub fn header(&self, index: u32) -> Option<Header>
        ensures { MatchOption result (section_count self.now ≤ index) (λ header. (index < section_count self.now) × (header ≡ section_header_at self.now index)) }
    {
        let index = index as usize;
        if index >= self.table.count {
            return None;
        }
        Some(self.table.header(index))
    }
}
