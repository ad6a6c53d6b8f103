//! The table of section headers (System V gABI, chapter 4, "ELF Header" and "Sections").

ghost use Rattle.std.specs.Prelude.{◌≡◌, ◌≤◌, ◌<◌, ◌*◌, ◌+◌, length, take, drop, true, false, MatchOption, Some, None};
ghost use Rattle.ix_base.specs.Reading.{before_zero};
ghost use Rattle.index_model.specs.Sections.{header, header_at, section_count as count_of, names_index, names, names_fit, table_at, field};
ghost use Rattle.file_image.specs.Headers.{header_of, section_header, IsRefused, HasHeaders, IsTable};

use crate::section_header::{Header, SECTION_HEADER_LENGTH};
use byteorder::{ByteOrder, LittleEndian};
use ix_base::Cursor;

const COUNT_IN_SECTION_0: u16 = 0;

const INDEX_IN_SECTION_0: u16 = 0xFFFF;

/// The headers of all sections, and the bytes of the section that holds their names.
#[derive(Clone, Copy)]
pub(crate) struct SectionHeaders<'f> {
    /// The bytes of the file from the first header on.
    pub(crate) headers: &'f [u8],
    pub(crate) count: usize,
    pub(crate) names: &'f [u8],
    ghost whole: { 64 * count ≤ length headers.now },
}

impl<'f> SectionHeaders<'f> {
    /// The table of a file, if it and the section of the names lie in the file.
    pub(crate) fn open(file: &'f [u8]) -> Option<SectionHeaders<'f>>
        requires { 64 ≤ length file.now }
        ensures { MatchOption result (IsRefused file.now) (λ table. IsTable file.now table.headers.now table.count table.names.now) }
    {
        let headers = headers(file)?;
        let first = header_in(headers, 0);
        let count = section_count(file, &first);
        let index = index_of_names(file, &first);
        if count > (headers.len() / SECTION_HEADER_LENGTH) as u64 || u64::from(index) >= count {
            return None;
        }
        let Some(names) = names_section(file, headers, index) else {
            return None;
        };
        Some(SectionHeaders {
            headers,
            count: count as usize,
            names,
        })
    }

    /// The header of a section.
    pub(crate) fn header(&self, index: usize) -> Header
        requires { index < self.now.count }
        ensures own { header_of result ≡ header (take 64 (drop (64 * index) self.now.headers.now)) }
        ensures whole { result ≡ section_header (take 64 (drop (64 * index) self.now.headers.now)) }
    {
        header_in(self.headers, index)
    }

    /// The name of a section, if a zero ends it.
    pub(crate) fn name(&self, header: &Header) -> Option<&'f [u8]>
        ensures { MatchOption result (before_zero (drop header.now.name self.now.names.now) ≡ None) (λ name. before_zero (drop header.now.name self.now.names.now) ≡ Some name.now) }
    {
        let at = header.name as usize;
        if at > self.names.len() {
            return None;
        }
        Cursor::new(self.names, at).zstr()
    }
}

// The bytes of the file from the first section header on, if there is one.
fn headers(file: &[u8]) -> Option<&[u8]>
    requires { 64 ≤ length file.now }
    ensures { MatchOption result (IsRefused file.now) (λ headers. HasHeaders file.now headers.now) }
{
    let at = table_offset(file);
    if at == 0 || at > file.len() as u64 || header_length(file) != SECTION_HEADER_LENGTH {
        return None;
    }
    let headers = &file[at as usize..];
    if headers.len() < SECTION_HEADER_LENGTH {
        return None;
    }
    Some(headers)
}

// Where the table of section headers begins; 0 where there is none.
#[tactic(auto, unfolding(index_model::specs::Sections::field))]
fn table_offset(file: &[u8]) -> u64
    requires { 64 ≤ length file.now }
    ensures { result ≡ table_at file.now }
{
    LittleEndian::read_u64(&file[40..])
}

// How long a section header is.
#[tactic(auto, unfolding(index_model::specs::Sections::field))]
fn header_length(file: &[u8]) -> usize
    requires { 64 ≤ length file.now }
    ensures { result ≡ field 2 58 file.now }
{
    LittleEndian::read_u16(&file[58..]) as usize
}

// The header of a section in the table.
fn header_in(headers: &[u8], index: usize) -> Header
    requires { 64 * index + 64 ≤ length headers.now }
    ensures own { header_of result ≡ header (take 64 (drop (64 * index) headers.now)) }
    ensures whole { result ≡ section_header (take 64 (drop (64 * index) headers.now)) }
{
    let at = SECTION_HEADER_LENGTH * index;
    Header::read(&headers[at..at + SECTION_HEADER_LENGTH])
}

// How many sections there are. Where the field is 0, the size of section 0 says it.
#[tactic(auto, unfolding(index_model::specs::Sections::section_count, index_model::specs::Sections::field))]
fn section_count(file: &[u8], first: &Header) -> u64
    requires long { 64 ≤ length file.now }
    requires table { 0 < table_at file.now }
    requires first { header_of first.now ≡ header_at file.now 0 }
    ensures { result ≡ count_of file.now }
{
    let count = LittleEndian::read_u16(&file[60..]);
    if count == COUNT_IN_SECTION_0 {
        first.size
    } else {
        u64::from(count)
    }
}

// The index of the section that holds the names. Where the field is FFFF, the link of section 0 says it.
#[tactic(auto, unfolding(index_model::specs::Sections::names_index, index_model::specs::Sections::field))]
pub(crate) fn index_of_names(file: &[u8], first: &Header) -> u32
    requires long { 64 ≤ length file.now }
    requires first { header_of first.now ≡ header_at file.now 0 }
    ensures { result ≡ names_index file.now }
{
    let index = LittleEndian::read_u16(&file[62..]);
    if index == INDEX_IN_SECTION_0 {
        first.link
    } else {
        u32::from(index)
    }
}

// The bytes of the section that holds the names, if they lie in the file. Section 0 has none.
fn names_section<'f>(file: &'f [u8], headers: &[u8], index: u32) -> Option<&'f [u8]>
    requires whole { 64 * index + 64 ≤ length headers.now }
    requires headers { headers.now ≡ drop (table_at file.now) file.now }
    requires index { index ≡ names_index file.now }
    ensures { MatchOption result (names_fit file.now ≡ false) (λ bytes. (names_fit file.now ≡ true) × (bytes.now ≡ names file.now)) }
{
    if index == 0 {
        return Some(&[]);
    }
    header_in(headers, index as usize).content(file)
}
