//! The header of one section (System V gABI, chapter 4, "Sections").

ghost use Rattle.std.specs.Prelude.{◌≡◌, ◌+◌, ◌≤◌, length, true, false, MatchOption};
ghost use Rattle.index_model.specs.Sections.{field, fits, content};
ghost use Rattle.file_image.specs.Headers.{header_of, section_header};

use byteorder::{ByteOrder, LittleEndian};

/// The length of a section header of a file of 64 bits.
pub(crate) const SECTION_HEADER_LENGTH: usize = 64;

const NULL: u32 = 0;

const NO_BITS: u32 = 8;

/// What a section header says (`Elf64_Shdr`).
#[derive(Clone, Copy)]
pub struct Header {
    /// Where the section's name begins in the names' section.
    pub name: u32,
    /// The type, of which 0 and 8 have no bytes in the file.
    pub kind: u32,
    pub flags: u64,
    /// Where the section begins in memory; 0 where it isn't there.
    pub address: u64,
    /// Where its bytes begin in the file.
    pub at: u64,
    /// How many bytes it has.
    pub size: u64,
    /// The index of another section, by type.
    pub link: u32,
    /// More, by type.
    pub info: u32,
    /// The bytes of which the address is a multiple; 0 and 1 demand nothing.
    pub alignment: u64,
    /// How many bytes an entry has, in a section of entries of one size.
    pub entry_size: u64,
}

impl Header {
    /// The header at the front of the bytes.
    #[tactic(auto, unfolding(crate::specs::Headers::section_header))]
    pub(crate) fn read(bytes: &[u8]) -> Header
        requires { 64 ≤ length bytes.now }
        ensures { result ≡ section_header bytes.now }
    {
        Header {
            name: word(bytes, 0),
            kind: word(bytes, 4),
            flags: xword(bytes, 8),
            address: xword(bytes, 16),
            at: xword(bytes, 24),
            size: xword(bytes, 32),
            link: word(bytes, 40),
            info: word(bytes, 44),
            alignment: xword(bytes, 48),
            entry_size: xword(bytes, 56),
        }
    }

    /// The bytes of the section, if they lie in the file. A section of type null or no bits has none.
    pub(crate) fn content<'f>(&self, file: &'f [u8]) -> Option<&'f [u8]>
        ensures { MatchOption result (fits file.now (header_of self.now) ≡ false) (λ bytes. (fits file.now (header_of self.now) ≡ true) × (bytes.now ≡ content file.now (header_of self.now))) }
    {
        if self.kind == NULL || self.kind == NO_BITS || self.size == 0 {
            return Some(&[]);
        }
        let end = self.at.checked_add(self.size)?;
        if end > file.len() as u64 {
            return None;
        }
        Some(&file[self.at as usize..end as usize])
    }
}

// A number of 4 bytes, the lowest first (`Elf64_Word`).
#[tactic(auto, unfolding(index_model::specs::Sections::field))]
fn word(bytes: &[u8], at: usize) -> u32
    requires { at + 4 ≤ length bytes.now }
    ensures { result ≡ field 4 at bytes.now }
{
    LittleEndian::read_u32(&bytes[at..])
}

// A number of 8 bytes, the lowest first (`Elf64_Xword`).
#[tactic(auto, unfolding(index_model::specs::Sections::field))]
fn xword(bytes: &[u8], at: usize) -> u64
    requires { at + 8 ≤ length bytes.now }
    ensures { result ≡ field 8 at bytes.now }
{
    LittleEndian::read_u64(&bytes[at..])
}
