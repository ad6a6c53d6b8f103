//! The headers of the sections that a file had before (System V gABI, chapter 4, "Sections").

ghost use Rattle.std.specs.Prelude.{◌≡◌, ◌≤◌, ◌<◌, ◌+◌, ◌*◌, ◌++◌, flat_map, length, OnOk};
ghost use Rattle.index_model.specs.Layout.{below};
ghost use Rattle.index_model.specs.Sections.{bytes_from, field, section_count, table_at};
ghost use Rattle.reach_model.specs.Added.{count_beside, first_header, index_beside, moved, with_bits};
ghost use Rattle.elf_add.specs.Headers.{header_then, moved_at};

use crate::fields::{
    E_SHOFF, HEADER_LENGTH, SH_ADDRALIGN, SH_LINK, SH_OFFSET, SH_SIZE, SH_TYPE, SHN_LORESERVE,
    SHT_NOBITS, SHT_NULL, SHT_PROGBITS,
};
use crate::numbers::{put_u32, put_u64};
use crate::pieces::Moved;
use byteorder::{ByteOrder, LittleEndian};
use ix_base::NoMemory;

/// What changes in the headers.
#[derive(Clone, Copy)]
pub(crate) struct Changes {
    /// How many sections there are then.
    pub(crate) count: u32,
    /// The index of the names' section.
    pub(crate) names_index: u32,
    /// `.debug_str`, where it got strings.
    pub(crate) strings: Option<Moved>,
    /// The names' section, where it isn't that one.
    pub(crate) names: Option<Moved>,
}

impl Changes {
    // Where the bytes of the section with this index are, if they were placed anew.
    fn moved(&self, index: usize) -> Option<Moved>
        ensures { result ≡ moved_at index self.now.strings self.now.names }
    {
        if let Some(strings) = self.strings {
            if strings.index == index {
                return Some(strings);
            }
        }
        match self.names {
            Some(names) if names.index == index => Some(names),
            _ => None,
        }
    }
}

/// Appends the headers of the file's sections.
pub(crate) fn push_old_headers(
    bytes: &mut Vec<u8>,
    file: &[u8],
    count: usize,
    changes: &Changes,
) -> Result<(), NoMemory>
    requires long { 64 ≤ length file.now }
    requires table { table_at file.now + 64 * count ≤ length file.now }
    ensures { OnOk result (bytes.new.items ≡ bytes.old.items ++ flat_map (λ i. header_then (bytes_from (table_at file.now + 64 * i) 64 file.now) changes.now i) (below count)) }
{
    let table = table_offset(file);
    for index in 0..count {
        let at = table + HEADER_LENGTH * index;
        let header = changed_header(&file[at..at + HEADER_LENGTH], index, changes);
        bytes.extend_from_slice(&header)?;
    }
    Ok(())
}

// Where the table of section headers begins.
#[tactic(auto, unfolding(index_model::specs::Sections::field))]
fn table_offset(file: &[u8]) -> usize
    requires { 64 ≤ length file.now }
    ensures { result ≡ table_at file.now }
{
    LittleEndian::read_u64(&file[E_SHOFF..]) as usize
}

// The header of the section with this index, by its bytes in the file.
fn changed_header(old: &[u8], index: usize, changes: &Changes) -> [u8; HEADER_LENGTH]
    requires { length old.now ≡ 64 }
    ensures { result ≡ header_then old.now changes.now index }
{
    let mut header = [0; HEADER_LENGTH];
    header.copy_from_slice(old);
    if index == 0 {
        set_numbers(&mut header, changes.count, changes.names_index);
    } else if let Some(moved) = changes.moved(index) {
        set_place(&mut header, moved.at as u64, moved.size as u64);
    }
    header
}

// Writes the number of sections and the index of the names' section into the header of section 0.
#[tactic(auto, unfolding(reach_model::specs::Added::first_header))]
fn set_numbers(header: &mut [u8], count: u32, names_index: u32)
    requires { length header.old ≡ 64 }
    ensures { header.new ≡ first_header count names_index header.old }
{
    let count_beside = if count < SHN_LORESERVE { 0 } else { count };
    let index_beside = if names_index < SHN_LORESERVE {
        0
    } else {
        names_index
    };
    put_u64(header, SH_SIZE, u64::from(count_beside));
    put_u32(header, SH_LINK, index_beside);
}

// Writes the place and the size of bytes, which have no alignment.
#[tactic(auto, unfolding(reach_model::specs::Added::moved))]
fn set_place(header: &mut [u8], at: u64, size: u64)
    requires { length header.old ≡ 64 }
    ensures { header.new ≡ moved at size header.old }
{
    set_bits(header);
    put_u64(header, SH_OFFSET, at);
    put_u64(header, SH_SIZE, size);
    put_u64(header, SH_ADDRALIGN, 1);
}

// A section that has bytes isn't null, nor without bits.
#[tactic(auto, unfolding(reach_model::specs::Added::with_bits, index_model::specs::Sections::field))]
fn set_bits(header: &mut [u8])
    requires { length header.old ≡ 64 }
    ensures { header.new ≡ with_bits header.old }
{
    let kind = LittleEndian::read_u32(&header[SH_TYPE..]);
    if kind == SHT_NULL || kind == SHT_NOBITS {
        put_u32(header, SH_TYPE, SHT_PROGBITS);
    }
}
