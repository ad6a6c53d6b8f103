//! Where the parts of the file lie.

ghost use Rattle.std.specs.Prelude.{◌≡◌, length, IfSome};
ghost use Rattle.elf_make.specs.Packed.{contents, name_table, names_at, names_end, headers_at, padding};

use crate::section::Section;

/// The place of each part behind the ELF header, in bytes from the start of the file.
#[derive(Clone, Copy)]
pub(crate) struct PartOffsets {
    /// Where `.shstrtab` begins, and with it the contents end.
    pub(crate) names_at: usize,
    /// Where `.shstrtab` ends.
    pub(crate) names_end: usize,
    /// How many zeros stand behind it.
    pub(crate) padding: usize,
    /// Where the section headers begin.
    pub(crate) headers_at: usize,
    /// Where they end, and with them the file.
    pub(crate) end: usize,
}

const HEADER_SIZE: usize = 64;

// `.shstrtab` with the zero before it and the one behind it.
const OWN_NAME_SIZE: usize = 11;

impl PartOffsets {
    /// The layout for these sections; None where the file's size isn't a `usize`.
    #[tactic(auto, unfolding(crate::specs::Packed::names_at, crate::specs::Packed::names_end, crate::specs::Packed::headers_at))]
    pub(crate) fn of(sections: &[Section]) -> Option<PartOffsets>
        ensures names_at { IfSome result (λ l. l.names_at ≡ names_at sections.now) }
        ensures names_end { IfSome result (λ l. l.names_end ≡ names_end sections.now) }
        ensures padding { IfSome result (λ l. l.padding ≡ padding (names_end sections.now)) }
        ensures headers_at { IfSome result (λ l. l.headers_at ≡ headers_at sections.now) }
    {
        let names_at = contents_size(sections)?.checked_add(HEADER_SIZE)?;
        let names_end = names_at.checked_add(name_table_size(sections)?)?;
        let padding = (8 - names_end % 8) % 8;
        let headers_at = names_end.checked_add(padding)?;
        let headers_size = sections.len().checked_add(2)?.checked_mul(HEADER_SIZE)?;
        let end = headers_at.checked_add(headers_size)?;
        Some(PartOffsets {
            names_at,
            names_end,
            padding,
            headers_at,
            end,
        })
    }
}

#[tactic(auto, unfolding(crate::specs::Packed::contents))]
fn contents_size(sections: &[Section]) -> Option<usize>
    ensures { IfSome result (λ n. n ≡ length (contents sections.now)) }
{
    let mut size: usize = 0;
    for section in sections {
        size = size.checked_add(section.content.as_slice().len())?;
    }
    Some(size)
}

#[tactic(auto, unfolding(crate::specs::Packed::name_table, crate::specs::Packed::names))]
fn name_table_size(sections: &[Section]) -> Option<usize>
    ensures { IfSome result (λ n. n ≡ length (name_table sections.now)) }
{
    let mut size = OWN_NAME_SIZE;
    for section in sections {
        size = size
            .checked_add(section.name.as_slice().len())?
            .checked_add(1)?;
    }
    Some(size)
}
