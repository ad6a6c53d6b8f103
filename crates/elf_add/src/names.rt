//! The section of a file that holds the names of its sections.

ghost use Rattle.std.specs.Prelude.{◌≡◌, true, not, [], length};
ghost use Rattle.index_model.specs.Sections.{is_empty, names, names_fit};
ghost use Rattle.file_image.specs.Headers.{header_of};

use crate::fields::{SHT_NOBITS, SHT_NULL};
use file_image::{Header, SectionTable};

/// The bytes of the section that holds the names. Section 0 has none.
pub(crate) fn name_bytes<'f>(file: &'f [u8], table: &SectionTable<'f>) -> &'f [u8]
    requires table { table.now ≡ file.now }
    requires fits { names_fit file.now ≡ true }
    ensures { result.now ≡ names file.now }
{
    let index = table.names();
    match table.header(index) {
        Some(header) if index != 0 && has_bytes(&header) => {
            let at = header.at as usize;
            let end = at + header.size as usize;
            &file[at..end]
        }
        _ => &[],
    }
}

// Whether a section has bytes in the file.
fn has_bytes(header: &Header) -> bool
    ensures { result ≡ not (is_empty (header_of header.now)) }
{
    header.kind != SHT_NULL && header.kind != SHT_NOBITS && header.size != 0
}
