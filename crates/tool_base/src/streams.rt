//! Standard streams that are closed when the program begins.

use std::fs::{File, OpenOptions};
use std::os::fd::{AsRawFd, RawFd};
use std::rt::Files;

/// Takes the places of the standard streams that are closed, so that no file that is opened later stands there and is read as the
/// input or written to as the output. What stands there can't be read as an input, nor written to as an output. The places are taken
/// for as long as the result is there.
pub fn take_closed<R: Files<File = File>>(rt: &R) -> [Option<File>; 3] {
    let (mut unreadable, mut unwritable) = (OpenOptions::new(), OpenOptions::new());
    unreadable.write(true);
    unwritable.read(true);
    [
        take(rt, &unreadable, 0),
        take(rt, &unwritable, 1),
        take(rt, &unwritable, 2),
    ]
}

// Takes a place if it is free and all below it are taken.
fn take<R: Files<File = File>>(rt: &R, how: &OpenOptions, place: RawFd) -> Option<File> {
    let file = how.open(rt, "/dev/null").ok()?;
    if file.as_raw_fd() == place {
        Some(file)
    } else {
        None
    }
}
