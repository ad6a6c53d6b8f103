//! A file of a shelf, read whole.

ghost use Rattle.std.specs.Prelude.{◌≡◌, ℕ, ◌+◌, ◌^◌, ◌<◌, ◌≤◌, Err, length, vec_len, IfOk, OnErr};
ghost use Rattle.ix_base.specs.declared.or_memory.OrMemory.TheVariants as stops;
ghost use Rattle.outside.specs.Counts.{Rose};
ghost use Rattle.outside.specs.Files.{SameFiles};
ghost use Rattle.command_base.specs.FilesRead.{Holds, HoldsMore, HoldsFirst};
ghost use Rattle.command_base.specs.Stops.{stop_status};
ghost use Rattle.command_base.specs.declared.file.Unread.TheVariants as unread;

use crate::status::Status;
use ix_base::OrMemory;
use outside::Shelf;
use std::alloc::{AllocError, Global};

/// Why a file wasn't read.
#[derive(Clone, Copy)]
pub enum Unread {
    /// A read failed.
    Fault,
    /// The file has more bytes than the limit.
    TooBig,
}

/// How a command ends whose file wasn't read.
pub fn unread_status(stop: OrMemory<Unread>) -> Status
    ensures { result ≡ stop_status stop }
{
    match stop {
        OrMemory::Cause(Unread::Fault) => Status::ReadFault,
        OrMemory::Cause(Unread::TooBig) => Status::FileTooBig,
        OrMemory::Memory => Status::NoMemory,
    }
}

// How many bytes are asked for in one call: as many as the real shelf reads at once.
const PIECE: usize = 65536;

/// The bytes of the file, which are at most `limit`. It is read in pieces up to its end, a failure, or one byte past the
/// limit.
pub fn read_file<F: Shelf>(
    alloc: Global,
    shelf: &mut F,
    name: &str,
    limit: usize,
) -> Result<Vec<u8>, OrMemory<Unread>>
    requires { limit < 2 ^ 62 }
    ensures whole { IfOk result (λ bytes. Holds (F.files shelf.old) name.now bytes.items) }
    ensures bounded { IfOk result (λ bytes. vec_len bytes ≤ limit) }
    ensures fault { result ≡ Err (stops.Cause unread.Fault) → Rose (F.read_faults shelf.old) (F.read_faults shelf.new) }
    ensures too_big { result ≡ Err (stops.Cause unread.TooBig) → HoldsMore (F.files shelf.old) name.now limit }
    ensures kept { SameFiles (F.files shelf.old) (F.files shelf.new) }
    ensures reads { F.read_faults shelf.old ≤ F.read_faults shelf.new }
    ensures stores { F.store_faults shelf.new ≡ F.store_faults shelf.old }
    ensures kept_reads { F.kept_faults shelf.new ≡ F.kept_faults shelf.old }
{
    let mut bytes = Vec::new(alloc);
    let mut piece = zeros(alloc, PIECE)?;
    while bytes.len() <= limit {
        let room = PIECE.min(limit + 1 - bytes.len());
        if read_on(shelf, name, &mut bytes, &mut piece[..room])? == 0 {
            return Ok(bytes);
        }
    }
    Err(OrMemory::Cause(Unread::TooBig))
}

// A buffer of so many bytes.
fn zeros(alloc: Global, len: usize) -> Result<Vec<u8>, AllocError>
    ensures { IfOk result (λ buffer. vec_len buffer ≡ len) }
{
    vec![in alloc; 0u8; len]
}

// Reads the next bytes of the file behind those that were read, as many as the piece has room for at most, and says how
// many they were: 0 only at the file's end.
fn read_on<F: Shelf>(
    shelf: &mut F,
    name: &str,
    bytes: &mut Vec<u8>,
    piece: &mut [u8],
) -> Result<usize, OrMemory<Unread>>
    requires { 0 < length piece.old }
    ensures more { IfOk result (λ n. vec_len bytes.new ≡ vec_len bytes.old + n) }
    ensures within { IfOk result (λ n. n ≤ length piece.old) }
    ensures first { IfOk result (λ _. HoldsFirst (F.files shelf.old) name.now bytes.old.items → HoldsFirst (F.files shelf.old) name.now bytes.new.items) }
    ensures end { IfOk result (λ n. n ≡ 0 → HoldsFirst (F.files shelf.old) name.now bytes.old.items → Holds (F.files shelf.old) name.now bytes.new.items) }
    ensures not_too_big { result ≡ Err (stops.Cause unread.TooBig) → ⊥ }
    ensures fault { result ≡ Err (stops.Cause unread.Fault) → Rose (F.read_faults shelf.old) (F.read_faults shelf.new) }
    ensures kept { SameFiles (F.files shelf.old) (F.files shelf.new) }
    ensures reads { F.read_faults shelf.old ≤ F.read_faults shelf.new }
    ensures stores { F.store_faults shelf.new ≡ F.store_faults shelf.old }
    ensures kept_reads { F.kept_faults shelf.new ≡ F.kept_faults shelf.old }
{
    let Ok(count) = shelf.read_at(name, bytes.len() as u64, piece) else {
        return Err(OrMemory::Cause(Unread::Fault));
    };
    bytes.extend_from_slice(&piece[..count])?;
    Ok(count)
}
