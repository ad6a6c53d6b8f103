//! The debug sections that readers ask for again and again, found once.

ghost use Rattle.std.specs.Prelude.{◌≡◌, ◌≤◌, length, map};
ghost use Rattle.index_model.specs.Sections.{section_bytes};
ghost use Rattle.file_image.specs.Found.{section, AreSmall};
ghost use Rattle.file_image.specs.Resolved.{AreFound};

use crate::found::{NamedSection, first_named};

/// The bytes of these sections (DWARF 5, section 7.1 and appendix B; of `.debug_ranges` DWARF 4, section 2.17.3); none of one that
/// isn't there.
#[derive(Clone, Copy)]
pub(crate) struct Resolved<'f> {
    pub(crate) info: &'f [u8],
    pub(crate) abbrev: &'f [u8],
    pub(crate) str: &'f [u8],
    pub(crate) line_str: &'f [u8],
    pub(crate) str_offsets: &'f [u8],
    pub(crate) addr: &'f [u8],
    pub(crate) rnglists: &'f [u8],
    pub(crate) ranges: &'f [u8],
}

impl<'f> Resolved<'f> {
    /// Those among the sections that were found.
    pub(crate) fn of(found: &[NamedSection<'f>]) -> Resolved<'f>
        requires { AreSmall found.now }
        ensures { AreFound (map section found.now) result }
    {
        Resolved {
            info: content_of(found, b".debug_info"),
            abbrev: content_of(found, b".debug_abbrev"),
            str: content_of(found, b".debug_str"),
            line_str: content_of(found, b".debug_line_str"),
            str_offsets: content_of(found, b".debug_str_offsets"),
            addr: content_of(found, b".debug_addr"),
            rnglists: content_of(found, b".debug_rnglists"),
            ranges: content_of(found, b".debug_ranges"),
        }
    }
}

/// The bytes of the first section of this name; none, where there is no such section.
pub(crate) fn content_of<'f>(found: &[NamedSection<'f>], name: &[u8]) -> &'f [u8]
    requires { AreSmall found.now }
    ensures value { result.now ≡ section_bytes (map section found.now) name.now }
    ensures small { length result.now ≤ 1073741824 }
{
    match first_named(found, name) {
        Some(section) => section.content,
        None => &[],
    }
}
