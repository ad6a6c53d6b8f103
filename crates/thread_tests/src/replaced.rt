//! outside: a stored file takes the place of the one that was there.

use outside::{Failed, FileShelf, Shelf};
use std::fs::{self, Permissions};
use std::os::unix::fs::{PermissionsExt, symlink};
use std::test::Fail;

// The permissions of a file, and whether a name is a link.
fn mode(rt: &HostRuntime, name: &str) -> Result<u32, Fail> {
    Ok(fs::metadata(rt, name)?.permissions().mode() & 0o777)
}

#[test]
fn a_link_is_followed_and_permissions_stay(rt: HostRuntime) -> Result<(), Fail> {
    let (file, link) = ("replaced_program", "replaced_link");
    fs::write(&rt, file, b"the old program")?;
    fs::set_permissions(&rt, file, Permissions::from_mode(0o750))?;
    symlink(&rt, file, link)?;
    let stored = FileShelf::new(&rt, rt.alloc())?.store(link, b"the new one");
    let held = fs::read(&rt, file)?;
    let (mode, is_link) = (
        mode(&rt, file)?,
        fs::symlink_metadata(&rt, link)?.is_symlink(),
    );
    fs::remove_file(&rt, link)?;
    fs::remove_file(&rt, file)?;
    assert_eq!(rt; (stored, held.as_slice()), (Ok(()), &b"the new one"[..]));
    assert_eq!(rt; (mode, is_link), (0o750, true));
    Ok(())
}

// A name of 255 bytes leaves no room for that of the new file beside it.
#[test]
fn a_store_that_fails_leaves_the_old_file(rt: HostRuntime) -> Result<(), Fail> {
    let name = "n".repeat(rt.alloc(), 255)?;
    fs::write(&rt, name.as_str(), b"the old program")?;
    let stored = FileShelf::new(&rt, rt.alloc())?.store(name.as_str(), b"new");
    let held = fs::read(&rt, name.as_str())?;
    fs::remove_file(&rt, name.as_str())?;
    assert_eq!(rt;
        (stored, held.as_slice()),
        (Err(Failed), &b"the old program"[..])
    );
    Ok(())
}
