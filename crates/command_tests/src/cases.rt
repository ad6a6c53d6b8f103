//! What commands give over small files, and what they leave where a device fails.

use crate::called::Outside;
use crate::faults::holds;
use outside::{Leaves, MemShelf, MemSink, MemSource};
use std::alloc::{AllocError, Global};
use std::process::Abort;
use std::test::Fail;

/// How many bytes a store that fails leaves.
const LEFT: usize = 3;

/// What may fail of a run.
#[derive(Clone, Copy)]
pub(crate) enum Device {
    Read,
    Store,
    KeptRead,
    Write,
    Input,
}

impl Device {
    /// Makes the call with this number fail.
    pub(crate) fn fail(self, outside: &mut Outside, call: u64) -> Result<(), AllocError> {
        match self {
            Device::Read => outside.shelf.fail_read(call),
            Device::Store => outside.shelf.fail_store(call, Leaves::Prefix(LEFT as u64)),
            Device::KeptRead => outside.shelf.fail_kept_read(call),
            Device::Write => outside.out.fail_write(call),
            Device::Input => outside.input.fail_read(call),
        }
    }

    /// How many calls failed.
    pub(crate) fn faults(self, outside: &Outside) -> u64 {
        match self {
            Device::Read => outside.shelf.read_faults(),
            Device::Store => outside.shelf.store_faults(),
            Device::KeptRead => outside.shelf.kept_faults(),
            Device::Write => outside.out.faults(),
            Device::Input => outside.input.faults(),
        }
    }
}

/// A name and what it holds.
pub(crate) type Held<'c> = (&'c str, &'c [u8]);

/// A command over files and an input, with what it gives where nothing fails.
#[derive(Clone, Copy)]
pub(crate) struct Case<'c> {
    pub words: &'c [&'c str],
    pub files: &'c [Held<'c>],
    pub input: &'c [u8],
    pub text: &'c [u8],
    /// What is stored, in its order.
    pub stored: &'c [Held<'c>],
    /// The status and the text where a store fails.
    pub unstored: (u8, &'c [u8]),
    /// The text where a read of a kept file fails.
    pub unread: &'c [u8],
    /// How many reads of kept files fail by themselves, as they aren't there.
    pub missing: u64,
}

impl Case<'_> {
    /// How many calls of a device fail where none is to.
    pub(crate) fn missing_of(&self, device: Device) -> u64 {
        match device {
            Device::KeptRead => self.missing,
            Device::Read | Device::Store | Device::Write | Device::Input => 0,
        }
    }

    /// The files and the input.
    pub(crate) fn outside(&self, alloc: Global) -> Result<Outside, Fail> {
        let mut shelf = MemShelf::new(alloc);
        for (name, bytes) in self.files {
            shelf.put(name, bytes)?;
        }
        Ok(Outside {
            shelf,
            input: MemSource::new(alloc, self.input)?,
            out: MemSink::new(alloc),
        })
    }

    /// Asserts what stands where nothing failed.
    pub(crate) fn assert_whole<R: Abort>(&self, rt: &R, status: u8, outside: &Outside) {
        assert_eq!(rt; (status, outside.has_written(self.text)), (0, true));
        assert!(rt; self.has_stored(&outside.shelf, self.stored.len()));
    }

    /// Asserts what stands where this call of a device failed.
    pub(crate) fn assert_failed<R: Abort>(
        &self,
        rt: &R,
        device: Device,
        call: u64,
        status: u8,
        outside: &Outside,
    ) {
        let written = outside.out.bytes();
        let (wanted, is_written) = match device {
            Device::Read => (3, written == b"read fault\n".as_slice()),
            Device::Store => (self.unstored.0, written == self.unstored.1),
            Device::KeptRead => (0, written == self.unread),
            Device::Write => (5, self.text.starts_with(written)),
            Device::Input => (6, self.text.starts_with(written)),
        };
        assert_eq!(rt; (status, is_written), (wanted, true));
        assert!(rt; self.has_left(&outside.shelf, device, call));
    }

    // What the names hold then: a store that fails leaves a part of its bytes, behind those that were stored before it.
    fn has_left(&self, shelf: &MemShelf, device: Device, call: u64) -> bool {
        match device {
            Device::Read | Device::Input => self.has_stored(shelf, 0),
            Device::KeptRead | Device::Write => self.has_stored(shelf, self.stored.len()),
            Device::Store => {
                let before = call.saturating_sub(1) as usize;
                let (name, bytes) = match self.stored.get(before) {
                    Some(held) => *held,
                    None => return false,
                };
                let left = &bytes[..bytes.len().min(LEFT)];
                self.has_stored(shelf, before) && holds(shelf, name, left)
            }
        }
    }

    // So many names hold what is stored, and each file that nothing is stored over what it held.
    fn has_stored(&self, shelf: &MemShelf, count: usize) -> bool {
        let stored = self
            .stored
            .iter()
            .take(count)
            .all(|(name, bytes)| holds(shelf, name, bytes));
        let kept = self.files.iter().all(|(name, bytes)| {
            self.stored.iter().any(|(other, _)| other == name) || holds(shelf, name, bytes)
        });
        stored && kept
    }
}
