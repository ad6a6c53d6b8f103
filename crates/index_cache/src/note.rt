//! The note with the build-id of a program.

ghost use Rattle.std.specs.Prelude.{◌≡◌, IfSome, option_map};
ghost use Rattle.reach_model.specs.BuildIds.{build_id_in, build_id_of, IsBuildId};

use file_image::Sections;
use ix_base::Cursor;

/// How many bytes the name of the owner of a note with a build-id has.
const OWNER_LENGTH: u32 = 4;

/// What such a note has behind its two lengths: its type, NT_GNU_BUILD_ID, and its owner's name (gABI, "Note Section").
const BUILD_ID_NOTE: &[u8] = b"\x03\0\0\0GNU\0";

/// How many bytes a build-id has at most.
const MAX_BUILD_ID: u32 = 64;

/// The build-id of a program: that of the note which its section `.note.gnu.build-id` begins with. None exactly where the section
/// doesn't begin with such a note, whose id has 1 to 64 bytes.
pub fn build_id<'f>(sections: &Sections<'f>) -> Option<&'f [u8]>
    ensures value { option_map (λ id. id.now) result ≡ build_id_of sections.now }
    ensures length { IfSome result (λ id. IsBuildId id.now) }
{
    build_id_in(sections.get(b".note.gnu.build-id"))
}

// The build-id of the note that the bytes begin with.
#[tactic(auto, unfolding(reach_model::specs::BuildIds::build_id_in))]
fn build_id_in(note: &[u8]) -> Option<&[u8]>
    ensures value { option_map (λ id. id.now) result ≡ build_id_in note.now }
    ensures length { IfSome result (λ id. IsBuildId id.now) }
{
    let mut cursor = Cursor::new(note, 0);
    let owner = cursor.u32()?;
    let size = cursor.u32()?;
    let front = cursor.bytes(BUILD_ID_NOTE.len() as u64)?;
    let id = cursor.bytes(u64::from(size))?;
    if owner == OWNER_LENGTH && front == BUILD_ID_NOTE && 1 <= size && size <= MAX_BUILD_ID {
        Some(id)
    } else {
        None
    }
}
