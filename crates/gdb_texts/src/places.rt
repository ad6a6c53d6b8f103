//! Which texts are spelled beforehand.

use ix_base::NoMemory;
use memchr::memchr;
use std::alloc::Global;

/// Where the texts of a string section begin that have template arguments.
pub(crate) fn template_names(alloc: Global, strings: &[u8]) -> Result<Vec<u64>, NoMemory> {
    let mut places = Vec::new(alloc);
    let mut rest = strings;
    while let Some(length) = memchr(0, rest) {
        if memchr(b'<', &rest[..length]).is_some() {
            places.push(strings.len().saturating_sub(rest.len()) as u64)?;
        }
        rest = &rest[length.saturating_add(1)..];
    }
    Ok(places)
}
