//! Places of fields, and numbers in them (System V gABI, chapter 4, "ELF Header" and "Sections").

/// Where `Elf64_Ehdr` has the place of the section headers, their number, and the index of the names' section.
pub(crate) const E_SHOFF: usize = 40;

pub(crate) const E_SHNUM: usize = 60;

pub(crate) const E_SHSTRNDX: usize = 62;

/// The length of a section header.
pub(crate) const HEADER_LENGTH: usize = 64;

/// Where `Elf64_Shdr` has a section's type, the place and the number of its bytes, the index of another section, and its alignment.
pub(crate) const SH_TYPE: usize = 4;

pub(crate) const SH_OFFSET: usize = 24;

pub(crate) const SH_SIZE: usize = 32;

pub(crate) const SH_LINK: usize = 40;

pub(crate) const SH_ADDRALIGN: usize = 48;

pub(crate) const SHT_NULL: u32 = 0;

pub(crate) const SHT_PROGBITS: u32 = 1;

pub(crate) const SHT_NOBITS: u32 = 8;

/// From here on a number of sections and an index stand in the header of section 0.
pub(crate) const SHN_LORESERVE: u32 = 0xFF00;

/// Says so of the index in the ELF header.
pub(crate) const SHN_XINDEX: u16 = 0xFFFF;

/// Says so of the number in the ELF header.
pub(crate) const COUNT_IN_SECTION_0: u16 = 0;
