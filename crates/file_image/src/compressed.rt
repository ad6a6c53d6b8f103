//! Compressed debug sections, which aren't read (System V gABI, chapter 4, "Section Compression").

ghost use Rattle.std.specs.Prelude.{◌≡◌, map};
ghost use Rattle.index_model.specs.Gives.{GivesAlways};
ghost use Rattle.index_model.specs.Sections.{none_compressed, is_compressed as compressed_by};
ghost use Rattle.file_image.specs.Found.{section};

use crate::found::NamedSection;
use ix_base::{Fault, code};

/// The flag of a compressed section.
const COMPRESSED_FLAG: u64 = 0x800;

/// None of the sections is compressed, or the first that is. Section 0 isn't among them.
pub(crate) fn check_compressed(found: &[NamedSection<'_>]) -> Result<(), Fault>
    ensures { GivesAlways (λ _. record {}) result (none_compressed 1 (map section found.now)) }
{
    for (index, section) in found.iter().enumerate() {
        if is_compressed(section) {
            return Err(Fault {
                code: code::COMPRESSED,
                at: index as u64 + 1,
            });
        }
    }
    Ok(())
}

// A debug section is compressed by its flag, and another by its name.
fn is_compressed(found: &NamedSection<'_>) -> bool
    ensures { result ≡ compressed_by (section found.now) }
{
    found.flags & COMPRESSED_FLAG != 0 && found.name.starts_with(b".debug_")
        || found.name.starts_with(b".zdebug_")
}
