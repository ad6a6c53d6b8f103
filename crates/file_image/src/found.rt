//! The sections that the table of section headers names.

ghost use Rattle.std.specs.Prelude.{◌≡◌, ◌≤◌, ◌<◌, ◌-◌, length, find, bytes_eq, map, IfOk};
ghost use Rattle.std.specs.Option.{option_copied};
ghost use Rattle.ix_base.specs.declared.code.TheConstants.{SECTION_TABLE};
ghost use Rattle.index_model.specs.Gives.{GivesAlways, Gives};
ghost use Rattle.index_model.specs.Sections.{section_from, sections_from, header_at, headers_from, index_named as index_of};
ghost use Rattle.file_image.specs.Found.{section, AreSmall};
ghost use Rattle.file_image.specs.Headers.{IsTable};

use crate::table::SectionHeaders;
use ix_base::{Fault, MAX_FILE_BYTES, NoMemory, Stop, code};
use reading_limit::ReadingLimit;
use std::alloc::Global;

// How many bytes the names of all sections may have. They may overlap, so they may have more than the file.
const NAMES: u64 = 1 << 30;

/// A section: its name, its flags and its bytes.
#[derive(Clone, Copy)]
pub(crate) struct NamedSection<'f> {
    pub(crate) name: &'f [u8],
    pub(crate) flags: u64,
    pub(crate) content: &'f [u8],
}

/// The sections of the table behind section 0, or the first whose bytes or name leave the file.
pub(crate) fn sections_of_table<'f>(
    alloc: Global,
    file: &'f [u8],
    table: &SectionHeaders<'f>,
) -> Result<Vec<NamedSection<'f>>, Stop>
    requires limit { length file.now ≤ MAX_FILE_BYTES }
    requires table { IsTable file.now table.now.headers.now table.now.count table.now.names.now }
    ensures value { Gives (λ v. map section v.items) result (sections_from file.now 1 (headers_from file.now 1 (table.now.count - 1))) }
    ensures small { IfOk result (λ v. AreSmall v.items) }
{
    let mut found = Vec::with_capacity(alloc, table.count)?;
    let mut to_read = ReadingLimit::of(NAMES);
    for index in 1..table.count {
        let section = section_at(file, table, index)?;
        to_read.take(section.name.len() as u64).ok_or(NoMemory)?;
        found.push(section)?;
    }
    Ok(found)
}

// The section with this index: its bytes lie in the file, and its name has an end.
fn section_at<'f>(
    file: &'f [u8],
    table: &SectionHeaders<'f>,
    index: usize,
) -> Result<NamedSection<'f>, Fault>
    requires limit { length file.now ≤ MAX_FILE_BYTES }
    requires table { IsTable file.now table.now.headers.now table.now.count table.now.names.now }
    requires index { index < table.now.count }
    ensures value { GivesAlways section result (section_from file.now index (header_at file.now index)) }
    ensures small { IfOk result (λ s. length s.content.now ≤ MAX_FILE_BYTES) }
{
    let header = table.header(index);
    let Some(content) = header.content(file) else {
        return Err(table_fault(index));
    };
    let Some(name) = table.name(&header) else {
        return Err(table_fault(index));
    };
    Ok(NamedSection {
        name,
        flags: header.flags,
        content,
    })
}

/// The fault of the table, or of the section with this index.
pub(crate) fn table_fault(at: usize) -> Fault
    ensures { result ≡ record { code = SECTION_TABLE; at = at } }
{
    Fault {
        code: code::SECTION_TABLE,
        at: at as u64,
    }
}

/// The first section of a name.
pub(crate) fn first_named<'a, 'f>(
    found: &'a [NamedSection<'f>],
    name: &[u8],
) -> Option<&'a NamedSection<'f>>
    ensures { option_copied result ≡ find (λ f. bytes_eq f.name.now name.now) found.now }
{
    found.iter().find(|section| section.name == name)
}

/// The index of the first section of a name, counted from 1.
pub(crate) fn index_named(found: &[NamedSection<'_>], name: &[u8]) -> Option<usize>
    ensures { result ≡ index_of (map section found.now) name.now }
{
    for (index, section) in found.iter().enumerate() {
        if section.name == name {
            return Some(index + 1);
        }
    }
    None
}
