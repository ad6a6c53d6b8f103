//! A file of the system that is replaced by a new one once that is whole.

use std::alloc::Global;
use std::fs::{self, Metadata, OpenFile, OpenOptions, Permissions};
use std::io::{self, ErrorKind, Write};
use std::rt::Files;

/// How many names are tried for the new file.
const TRIES: u32 = 100;

/// Where the bytes of a store go.
enum Target {
    /// To what the name leads to, which is no file: a device, say, or what a link says that leads nowhere yet.
    InPlace,
    /// To a file with this path, which has the permissions of the one that was there.
    File(String, Option<Permissions>),
}

/// Stores the bytes under a name. They are written to a new file in the folder of the old one, whose permissions it has and whose place
/// it takes once it is whole: until then, and where a step fails, the old file stays. A link is followed.
pub(crate) fn replace<R: Files>(
    files: &R,
    alloc: Global,
    name: &str,
    bytes: &[u8],
) -> io::Result<()> {
    match target_of(files, alloc, name)? {
        Target::InPlace => fs::write(files, name, bytes),
        Target::File(path, permissions) => {
            let (beside, file) = create_beside(files, alloc, path.as_str())?;
            let done = fill(file, bytes, permissions).and_then(|()| fs::rename(
                files,
                beside.as_str(),
                path.as_str(),
            ));
            if done.is_err() {
                let _ = fs::remove_file(files, beside.as_str());
            }
            done
        }
    }
}

// Where a name leads.
fn target_of<R: Files>(files: &R, alloc: Global, name: &str) -> io::Result<Target> {
    let own = match fs::symlink_metadata(files, name) {
        Ok(own) => own,
        Err(e) if e.kind() == ErrorKind::NotFound => {
            return Ok(Target::File(String::from_str(alloc, name)?, None));
        }
        Err(e) => return Err(e),
    };
    if !own.is_symlink() {
        return at_end(files, String::from_str(alloc, name)?, own);
    }
    match fs::metadata(files, name) {
        Ok(end) => at_end(files, files.canonicalize(alloc, name)?.into_string(), end),
        Err(e) if e.kind() == ErrorKind::NotFound => Ok(Target::InPlace),
        Err(e) => Err(e),
    }
}

// What is replaced at the end of all links: a file alone, and none that may not be written.
fn at_end<R: Files>(files: &R, path: String, found: Metadata) -> io::Result<Target> {
    if !found.is_file() {
        return Ok(Target::InPlace);
    }
    match OpenOptions::new().write(true).open(files, path.as_str()) {
        Err(e) if e.kind() == ErrorKind::PermissionDenied => Err(e),
        // A program that runs can't be opened for writing, and can be replaced.
        _ => Ok(Target::File(path, Some(found.permissions()))),
    }
}

// A new file beside the one with this path, and its own path.
fn create_beside<R: Files>(files: &R, alloc: Global, path: &str) -> io::Result<(String, R::File)> {
    for number in 0..TRIES {
        let beside = format!(in alloc; "{path}.{number}.new")?;
        let mut how = OpenOptions::new();
        how.write(true).create_new(true);
        match how.open(files, beside.as_str()) {
            Ok(file) => return Ok((beside, file)),
            Err(e) if e.kind() == ErrorKind::AlreadyExists => {}
            Err(e) => return Err(e),
        }
    }
    Err(io::Error::from(ErrorKind::AlreadyExists))
}

// Writes a new file, and gives it the permissions of an old one.
fn fill<F: Write + OpenFile + Drop>(
    mut file: F,
    bytes: &[u8],
    permissions: Option<Permissions>,
) -> io::Result<()> {
    file.write_all(bytes)?;
    match permissions {
        Some(permissions) => file.set_permissions(permissions),
        None => Ok(()),
    }
}
