//! The parts of the file that go over the sections: their contents, their names and their headers.

ghost use Rattle.std.specs.Prelude.{◌≡◌, ◌+◌, ◌<◌, ◌^◌, ◌++◌, length, IfOk, OnOk};
ghost use Rattle.elf_make.specs.Packed.{contents, names, name_table, names_at, names_end, section_headers, added_headers};

use crate::header::{SHT_PROGBITS, SHT_STRTAB, push_section_header, push_zeros};
use crate::layout::PartOffsets;
use crate::section::Section;
use ix_base::NoMemory;

const EMPTY_NAME: &[u8] = b"\0";

const OWN_NAME: &[u8] = b".shstrtab\0";

/// Appends the bytes of the sections.
#[tactic(auto, unfolding(crate::specs::Packed::contents))]
pub(crate) fn push_contents(file: &mut Vec<u8>, sections: &[Section]) -> Result<(), NoMemory>
    ensures { OnOk result (file.new.items ≡ file.old.items ++ contents sections.now) }
{
    for section in sections {
        file.extend_from_slice(section.content.as_slice())?;
    }
    Ok(())
}

/// Appends the bytes of `.shstrtab`.
#[tactic(auto, unfolding(crate::specs::Packed::name_table, crate::specs::Packed::names))]
pub(crate) fn push_name_table(file: &mut Vec<u8>, sections: &[Section]) -> Result<(), NoMemory>
    ensures { OnOk result (file.new.items ≡ file.old.items ++ name_table sections.now) }
{
    file.extend_from_slice(EMPTY_NAME)?;
    for section in sections {
        file.extend_from_slice(section.name.as_slice())?;
        file.push(0)?;
    }
    file.extend_from_slice(OWN_NAME)?;
    Ok(())
}

/// Appends the section headers.
pub(crate) fn push_section_headers(
    file: &mut Vec<u8>,
    sections: &[Section],
    layout: &PartOffsets,
) -> Result<(), NoMemory>
    requires names { length (name_table sections.now) < 4294967296 }
    requires names_at { layout.now.names_at ≡ names_at sections.now }
    requires names_end { layout.now.names_end ≡ names_end sections.now }
    ensures { OnOk result (file.new.items ≡ file.old.items ++ section_headers sections.now) }
{
    push_zeros(file, 64)?;
    let own_name = push_added_headers(file, sections, layout.names_at)?;
    let size = layout.names_end - layout.names_at;
    push_section_header(
        file,
        own_name,
        SHT_STRTAB,
        layout.names_at as u64,
        size as u64,
    )?;
    Ok(())
}

// Appends the headers of the added sections, and gives the place in `.shstrtab` behind their names.
fn push_added_headers(file: &mut Vec<u8>, sections: &[Section], end: usize) -> Result<u32, NoMemory>
    requires names { length (name_table sections.now) < 4294967296 }
    requires end { end ≡ names_at sections.now }
    ensures headers { OnOk result (file.new.items ≡ file.old.items ++ added_headers 1 64 sections.now) }
    ensures name { IfOk result (λ name. name ≡ 1 + length (names sections.now)) }
{
    let mut name: usize = 1;
    let mut place: usize = 64;
    for section in sections {
        let size = section.content.as_slice().len();
        push_section_header(file, name as u32, SHT_PROGBITS, place as u64, size as u64)?;
        name += section.name.as_slice().len() + 1;
        place += size;
    }
    Ok(name as u32)
}
