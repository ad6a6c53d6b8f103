//! Whether two names lead to one file.

use std::fs;
use std::os::unix::fs::MetadataExt;
use std::rt::Files;

/// Whether both names lead to the same file, be it by links or as two names of it: they have one device and one number there. A name
/// that leads nowhere, or that can't be looked up, has no file in common with any.
pub fn is_same_file<R: Files>(files: &R, first: &str, second: &str) -> bool {
    match (fs::metadata(files, first), fs::metadata(files, second)) {
        (Ok(first), Ok(second)) => first.dev() == second.dev() && first.ino() == second.ino(),
        _ => false,
    }
}
