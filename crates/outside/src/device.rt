//! One call on a stream or a file of the system. Where the bytes of a reader, a writer or a file are known, the clauses say what the
//! call did to them, so that no answer can differ from what the system answered.

ghost use Rattle.std.specs.Prelude.{◌≡◌, ℕ, ◌≤◌, Some, length, drop, min, IfOk, IfSome, OnOk};
ghost use Rattle.std.specs.Io.KnownBytes.{ReadConsumes, WriteAppends};
ghost use Rattle.outside.specs.Places.{ReadsFrom};

use crate::answers::{given, taken};
use std::io::{self, ErrorKind, Read, Seek, SeekFrom, Write};

/// Reads bytes into the front of `into`, and says how many: 0 only at the end, or where `into` is empty. A failure takes none.
pub(crate) fn read_some<T: Read>(from: &mut T, into: &mut [u8]) -> io::Result<usize>
    ensures within { IfOk result (λ n. n ≤ length into.old) }
    ensures bytes { ReadConsumes (T.remaining from.old) (T.remaining from.new) result into.new }
{
    let answer = from.read(into);
    given(answer, into.len())
}

/// Writes bytes from the front of the piece, and says how many: 0 only of an empty piece. A failure writes none.
pub(crate) fn write_some<W: Write>(to: &mut W, piece: &[u8]) -> io::Result<usize>
    ensures within { IfOk result (λ n. n ≤ length piece.now) }
    ensures some { IfOk result (λ n. n ≡ 0 → length piece.now ≡ 0) }
    ensures bytes { WriteAppends (W.contents to.old) (W.contents to.new) result piece.now }
{
    taken(to.write(piece), piece.len())
}

/// Moves to a place of a file, wherever it stood before.
pub(crate) fn seek_to<F: Seek>(file: &mut F, at: u64) -> io::Result<()>
    ensures { OnOk result (IfSome (F.stream_position file.old) (λ _. F.stream_position file.new ≡ Some at)) }
{
    if file.seek(SeekFrom::Start(at))? != at {
        return Err(io::Error::from(ErrorKind::InvalidInput));
    }
    Ok(())
}

/// Reads bytes from a place of a file on into the front of `into`, wherever it stood before, and says how many: 0 only at the end, or
/// where there is no room. They pass through a buffer, so that the rest of `into` stays.
pub(crate) fn read_from<F: Read + Seek>(
    file: &mut F,
    at: u64,
    buffer: &mut [u8],
    into: &mut [u8],
) -> io::Result<usize>
    ensures within { IfOk result (λ n. n ≤ length into.old) }
    ensures rest { IfOk result (λ n. drop n into.new ≡ drop n into.old) }
    ensures bytes { IfOk result (λ n. ReadsFrom F.stream_position F.remaining file.old file.new at n (min (length into.old) (length buffer.old)) into.new) }
{
    seek_to(file, at)?;
    let room = into.len().min(buffer.len());
    let front = &mut buffer[..room];
    let count = read_some(file, front)?;
    into[..count].copy_from_slice(&front[..count]);
    Ok(count)
}
