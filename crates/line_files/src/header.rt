//! The front of a line table's header (DWARF 5, section 6.2.4; DWARF 4, section 6.2.4).

ghost use Rattle.std.specs.Prelude.{◌≡◌};
ghost use Rattle.index_model.specs.Gives.{GivesAlways};
ghost use Rattle.index_model.specs.Strings.{offset_size};
ghost use Rattle.reach_model.specs.LineTables.{behind_fields, header_at, own_bytes, size_before_opcodes, version_at};
ghost use Rattle.line_files.specs.Entries.{header_seen};

use ix_base::Cursor;
use reach_model::code::{LINES_FIELDS, LINES_LENGTH, LINES_VERSION};

/// A table's version, whether its offsets have 8 bytes, and what stands behind its fields.
#[derive(Drop)]
pub(crate) struct LineHeader<'f> {
    pub version: u16,
    pub wide: bool,
    pub tables: Cursor<'f>,
}

// The table at a place: whether its offsets have 8 bytes, and its own bytes.
#[tactic(auto, unfolding(reach_model::specs::LineTables::own_bytes), using(crate::proofs::HeaderLaws::own_past))]
fn own_bytes<'f>(lines: &'f [u8], place: u64) -> Result<(bool, Cursor<'f>), u8>
    ensures { GivesAlways (λ own. own) result (own_bytes lines.now place) }
{
    if place > lines.len() as u64 {
        return Err(LINES_LENGTH);
    }
    let mut cursor = Cursor::new(lines, place as usize);
    let initial = cursor.initial_length().ok_or(LINES_LENGTH)?;
    let own = cursor.part(initial.length).ok_or(LINES_LENGTH)?;
    Ok((initial.wide, own))
}

// The version at the cursor.
#[tactic(auto, unfolding(reach_model::specs::LineTables::version_at))]
fn read_version(cursor: &mut Cursor<'_>) -> Result<u16, u8>
    ensures { GivesAlways (λ version. (version, cursor.new)) result (version_at cursor.old) }
{
    let version = cursor.u16().ok_or(LINES_VERSION)?;
    if version < 2 || version > 5 {
        return Err(LINES_VERSION);
    }
    Ok(version)
}

// The bytes of an offset.
fn offset_size(wide: bool) -> u64
    ensures { result ≡ offset_size wide }
{
    if wide { 8 } else { 4 }
}

// How many bytes stand before opcode_base: address_size and segment_selector_size (version 5), header_length,
// minimum_instruction_length, maximum_operations_per_instruction (from version 4 on), default_is_stmt, line_base and line_range.
fn size_before_opcodes(version: u16, wide: bool) -> u64
    ensures { result ≡ size_before_opcodes version wide }
{
    let sizes = if version == 5 { 2 } else { 0 };
    let bytes = if version >= 4 { 5 } else { 4 };
    sizes + offset_size(wide) + bytes
}

// Passes the fields of this version, and the lengths of the standard opcodes.
#[tactic(auto, unfolding(reach_model::specs::LineTables::behind_fields))]
fn pass_fields(version: u16, wide: bool, cursor: &mut Cursor<'_>) -> Result<(), u8>
    ensures { GivesAlways (λ _. cursor.new) result (behind_fields version wide cursor.old) }
{
    cursor
        .skip(size_before_opcodes(version, wide))
        .ok_or(LINES_FIELDS)?;
    let opcode_base = cursor.u8().ok_or(LINES_FIELDS)?;
    cursor
        .skip(u64::from(opcode_base.saturating_sub(1)))
        .ok_or(LINES_FIELDS)?;
    Ok(())
}

/// The header of the table at a place of `.debug_line`.
#[tactic(auto, unfolding(reach_model::specs::LineTables::header_at))]
pub(crate) fn read_header<'f>(lines: &'f [u8], place: u64) -> Result<LineHeader<'f>, u8>
    ensures { GivesAlways header_seen result (header_at lines.now place) }
{
    let (wide, mut tables) = own_bytes(lines, place)?;
    let version = read_version(&mut tables)?;
    pass_fields(version, wide, &mut tables)?;
    Ok(LineHeader {
        version,
        wide,
        tables,
    })
}
