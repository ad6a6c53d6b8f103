//! The headers of the sections that are added (System V gABI, chapter 4, "Sections", `Elf64_Shdr`).

ghost use Rattle.std.specs.Prelude.{◌≡◌, ◌++◌, map, OnOk};
ghost use Rattle.reach_model.specs.Added.{new_header, new_headers};
ghost use Rattle.reach_model.specs.AddedSections.{HavePlaces};
ghost use Rattle.elf_add.specs.Pieces.{section_of};

use crate::fields::SHT_PROGBITS;
use crate::numbers::{push_u32, push_u64, sum};
use crate::pieces::{NewSection, padding};
use ix_base::NoMemory;

const ALIGNMENT: u64 = 4;

/// Appends the headers of added sections. The name of the first begins at a place of the names' section, and its bytes at the next
/// multiple of 8 from a place of the file on.
pub(crate) fn push_new_headers(
    bytes: &mut Vec<u8>,
    sections: &[NewSection<'_>],
    first_name: usize,
    end: usize,
) -> Result<(), NoMemory>
    requires { HavePlaces first_name (map section_of sections.now) }
    ensures { OnOk result (bytes.new.items ≡ bytes.old.items ++ new_headers first_name end (map section_of sections.now)) }
{
    let mut name = first_name;
    let mut place = end;
    for section in sections {
        let start = sum(place, padding(place))?;
        let size = section.content.len();
        push_new_header(bytes, name as u32, start as u64, size as u64)?;
        name += section.name.len() + 1;
        place = sum(start, size)?;
    }
    Ok(())
}

// Appends the header of an added section, each field in its order: where its name begins in the names' section, its type, its flags,
// its address, where its bytes begin in the file, how many it has, its link, its info, its alignment, and the size of an entry.
fn push_new_header(bytes: &mut Vec<u8>, name: u32, at: u64, size: u64) -> Result<(), NoMemory>
    ensures { OnOk result (bytes.new.items ≡ bytes.old.items ++ new_header name at size) }
{
    push_u32(bytes, name)?;
    push_u32(bytes, SHT_PROGBITS)?;
    push_u64(bytes, 0)?;
    push_u64(bytes, 0)?;
    push_u64(bytes, at)?;
    push_u64(bytes, size)?;
    push_u32(bytes, 0)?;
    push_u32(bytes, 0)?;
    push_u64(bytes, ALIGNMENT)?;
    push_u64(bytes, 0)?;
    Ok(())
}
