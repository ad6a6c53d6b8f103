//! Why a call on a file failed, and the system's words for it.

ghost use Rattle.std.specs.Prelude.{◌≡◌};
ghost use Rattle.outside.specs.declared.failure.Cause.TheVariants.{System};

use std::alloc::AllocError;
use std::io::{self, ErrorKind};

/// Why a call on a file failed.
#[derive(Clone, Copy)]
pub enum Cause {
    /// What the name leads to is no regular file, nor a folder.
    NotRegular,
    /// The system refused it.
    System(io::Error),
}

impl From<io::Error> for Cause {
    ghost from_gives = { λ error cause. cause ≡ System error };

    fn from(error: io::Error) -> Cause {
        Cause::System(error)
    }
}

impl From<AllocError> for Cause {
    fn from(error: AllocError) -> Cause {
        Cause::System(io::Error::from(error))
    }
}

impl Cause {
    /// The words for it, as the system's `strerror` has them where it has some.
    pub fn words(self) -> &'static str {
        match self {
            Cause::NotRegular => "not a regular file",
            Cause::System(error) => system_words(&error),
        }
    }
}

/// A call on a file that failed.
#[derive(Drop)]
pub struct Failure {
    name: Option<String>,
    cause: Cause,
}

impl Failure {
    pub(crate) fn new(name: Option<String>, cause: Cause) -> Failure {
        Failure { name, cause }
    }

    /// The name that the call was given; None where memory for it was refused.
    pub fn name(&self) -> Option<&str> {
        match &self.name {
            Some(name) => Some(name.as_str()),
            None => None,
        }
    }

    pub fn cause(&self) -> Cause {
        self.cause
    }
}

/// The system's words for an error: by its number where it has one that shares its kind with others, else by its kind.
pub fn system_words(error: &io::Error) -> &'static str {
    match error.raw_os_error() {
        Some(1) => "Operation not permitted",
        Some(5) => "Input/output error",
        Some(6) => "No such device or address",
        Some(9) => "Bad file descriptor",
        Some(14) => "Bad address",
        Some(19) => "No such device",
        Some(23) => "Too many open files in system",
        Some(24) => "Too many open files",
        _ => kind_words(error.kind()),
    }
}

/// The words of Linux for a kind of error. What has no kind of its own is an unknown error.
pub fn kind_words(kind: ErrorKind) -> &'static str {
    match kind {
        ErrorKind::NotFound => "No such file or directory",
        ErrorKind::PermissionDenied => "Permission denied",
        ErrorKind::AlreadyExists => "File exists",
        ErrorKind::NotADirectory => "Not a directory",
        ErrorKind::IsADirectory => "Is a directory",
        ErrorKind::DirectoryNotEmpty => "Directory not empty",
        ErrorKind::InvalidFilename => "File name too long",
        ErrorKind::FilesystemLoop => "Too many levels of symbolic links",
        _ => room_words(kind),
    }
}

// The words for what a disk or a file has no room for.
fn room_words(kind: ErrorKind) -> &'static str {
    match kind {
        ErrorKind::StorageFull => "No space left on device",
        ErrorKind::QuotaExceeded => "Disk quota exceeded",
        ErrorKind::FileTooLarge => "File too large",
        ErrorKind::ReadOnlyFilesystem => "Read-only file system",
        ErrorKind::OutOfMemory => "Cannot allocate memory",
        ErrorKind::StaleNetworkFileHandle => "Stale file handle",
        ErrorKind::TooManyLinks => "Too many links",
        ErrorKind::CrossesDevices => "Invalid cross-device link",
        _ => call_words(kind),
    }
}

// The words for a call that can't be done.
fn call_words(kind: ErrorKind) -> &'static str {
    match kind {
        ErrorKind::BrokenPipe => "Broken pipe",
        ErrorKind::WouldBlock => "Resource temporarily unavailable",
        ErrorKind::Interrupted => "Interrupted system call",
        ErrorKind::InvalidInput => "Invalid argument",
        ErrorKind::NotSeekable => "Illegal seek",
        ErrorKind::ResourceBusy => "Device or resource busy",
        ErrorKind::ExecutableFileBusy => "Text file busy",
        ErrorKind::Unsupported => "Operation not supported",
        ErrorKind::TimedOut => "Connection timed out",
        ErrorKind::ConnectionReset => "Connection reset by peer",
        ErrorKind::WriteZero => "No bytes were written",
        _ => "Unknown error",
    }
}
