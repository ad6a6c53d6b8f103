//! How long the sections of units can be.

ghost use Rattle.std.specs.Prelude.{◌≤◌, codes, length};
ghost use Rattle.ix_base.specs.declared.limits.TheConstants.{MAX_FILE_BYTES};
ghost use Rattle.index_model.specs.Sections.{section_bytes};

use file_image::Image;

/// The sections of units are no longer than a file can be. So their sizes bound where the units end, and how many entries there
/// are.
pub fn sections_are_small(image: &Image<'_>)
    ensures info { length (section_bytes image.now.sections (codes ".debug_info")) ≤ MAX_FILE_BYTES }
    ensures types { length (section_bytes image.now.sections (codes ".debug_types")) ≤ MAX_FILE_BYTES }
{
    let _info = image.sections().debug_info();
    let _types = image.sections().get(b".debug_types");
}
