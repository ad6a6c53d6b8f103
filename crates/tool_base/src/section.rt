//! The names of sections, for a sentence that has a section's number (System V gABI, chapter 4, "ELF Header" and "Sections").

use byteorder::{ByteOrder, LittleEndian};
use memchr::memchr;
use outside::Shelf;

/// How many bytes the file's header has, and that of a section.
const HEADER: usize = 64;

/// How many bytes are read of a name.
pub(crate) const NAME: usize = 64;

/// Stands for an index of a section that is in the header of section 0 (`SHN_XINDEX`).
const IN_SECTION_0: u16 = 0xffff;

/// The name of the section with this number, as `readelf -S` numbers and shows it; None where it can't be read, or isn't made of
/// letters, digits and signs that a terminal shows.
pub(crate) fn section_name<'r, S: Shelf>(
    shelf: &mut S,
    file: &str,
    number: u64,
    room: &'r mut [u8; NAME],
) -> Option<&'r str> {
    let head = header_at(shelf, file, 0)?;
    let table = LittleEndian::read_u64(&head[40..48]);
    let own = section_at(shelf, file, table, number)?;
    let names_index = match LittleEndian::read_u16(&head[62..64]) {
        IN_SECTION_0 => LittleEndian::read_u32(&section_at(shelf, file, table, 0)?[40..44]),
        index => u32::from(index),
    };
    let names = section_at(shelf, file, table, u64::from(names_index))?;
    let name = u64::from(LittleEndian::read_u32(&own[0..4]));
    let begin = LittleEndian::read_u64(&names[24..32]).checked_add(name)?;
    let left = LittleEndian::read_u64(&names[32..40]).checked_sub(name)?;
    let count = shelf.read_at(file, begin, &mut room[..]).ok()?;
    let text = shown_text(room.get(..count)?)?;
    if text.len() as u64 >= left {
        return None;
    }
    Some(text)
}

// The text before the first zero, where all of it can be shown.
fn shown_text(bytes: &[u8]) -> Option<&str> {
    let text = &bytes[..memchr(0, bytes)?];
    if !text.iter().all(|byte| byte.is_ascii_graphic()) {
        return None;
    }
    str::from_utf8(text).ok()
}

// The header of a section, by its number.
fn section_at<S: Shelf>(
    shelf: &mut S,
    file: &str,
    table: u64,
    number: u64,
) -> Option<[u8; HEADER]> {
    let before = number.checked_mul(HEADER as u64)?;
    header_at(shelf, file, table.checked_add(before)?)
}

// The bytes of a header; None where the file has less.
fn header_at<S: Shelf>(shelf: &mut S, file: &str, at: u64) -> Option<[u8; HEADER]> {
    let mut header = [0; HEADER];
    match shelf.read_at(file, at, &mut header) {
        Ok(HEADER) => Some(header),
        _ => None,
    }
}
