//! What the system's answer to a call on a stream or a file means.

ghost use Rattle.std.specs.Prelude.{◌≡◌, ◌↔◌, Err, IfErr, IsOk};
ghost use Rattle.std.specs.Result.{result_ok};
ghost use Rattle.std.specs.Fs.{file_type, IsFile};
ghost use Rattle.outside.specs.Answers.{given_of, taken_of};

use crate::failure::Cause;
use std::fs::Metadata;
use std::io::{self, ErrorKind};

/// How many bytes a read gave that had so much room. A count beyond the room, which no system gives, is a failure.
pub(crate) fn given(answer: io::Result<usize>, room: usize) -> io::Result<usize>
    ensures count { result_ok result ≡ given_of (result_ok answer) room }
    ensures reason { IfErr answer (λ e. result ≡ Err e) }
{
    match answer {
        Ok(count) if count <= room => Ok(count),
        Ok(_) => Err(io::Error::from(ErrorKind::Other)),
        Err(e) => Err(e),
    }
}

/// How many bytes a write took of a piece of so many. To take none of a piece that isn't empty is a failure, and so is a count
/// beyond the piece.
pub(crate) fn taken(answer: io::Result<usize>, len: usize) -> io::Result<usize>
    ensures count { result_ok result ≡ taken_of (result_ok answer) len }
    ensures reason { IfErr answer (λ e. result ≡ Err e) }
{
    match answer {
        Ok(0) if len > 0 => Err(io::Error::from(ErrorKind::WriteZero)),
        Ok(count) if count <= len => Ok(count),
        Ok(_) => Err(io::Error::from(ErrorKind::Other)),
        Err(e) => Err(e),
    }
}

/// Refuses what isn't a regular file: a folder, a device, a pipe or a socket.
pub(crate) fn regular(found: &Metadata) -> Result<(), Cause>
    ensures { IsOk result ↔ IsFile (file_type found.now) }
{
    if found.is_file() {
        Ok(())
    } else if found.is_dir() {
        Err(Cause::System(io::Error::from(ErrorKind::IsADirectory)))
    } else {
        Err(Cause::NotRegular)
    }
}
