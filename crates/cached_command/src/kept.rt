//! A kept file, read whole.

ghost use Rattle.std.specs.Prelude.{◌≡◌, ℕ, ◌+◌, ◌<◌, ◌≤◌, Err, length, vec_len, IfOk};
ghost use Rattle.ix_base.specs.declared.limits.TheConstants.{MAX_FILE_BYTES};
ghost use Rattle.ix_base.specs.declared.or_memory.OrMemory.TheVariants as stops;
ghost use Rattle.outside.specs.Counts.{Rose};
ghost use Rattle.outside.specs.Files.{SameFiles};
ghost use Rattle.command_base.specs.FilesRead.{Holds, HoldsMore, HoldsFirst};
ghost use Rattle.command_base.specs.declared.file.Unread.TheVariants as unread;

use command_base::Unread;
use ix_base::{MAX_FILE_BYTES, OrMemory};
use outside::Shelf;
use std::alloc::{AllocError, Global};

// How many bytes are asked for in one call: as many as the real shelf reads at once.
const PIECE: usize = 65536;

/// The bytes that are kept under a name, which are at most as many as a file may have. They are read in pieces up to their end, a
/// failure, or one byte past the limit.
pub(crate) fn read_kept<F: Shelf>(
    alloc: Global,
    shelf: &mut F,
    name: &str,
) -> Result<Vec<u8>, OrMemory<Unread>>
    ensures whole { IfOk result (λ bytes. Holds (F.files shelf.old) name.now bytes.items) }
    ensures bounded { IfOk result (λ bytes. vec_len bytes ≤ MAX_FILE_BYTES) }
    ensures fault { result ≡ Err (stops.Cause unread.Fault) → Rose (F.kept_faults shelf.old) (F.kept_faults shelf.new) }
    ensures too_big { result ≡ Err (stops.Cause unread.TooBig) → HoldsMore (F.files shelf.old) name.now MAX_FILE_BYTES }
    ensures kept { SameFiles (F.files shelf.old) (F.files shelf.new) }
    ensures reads { F.read_faults shelf.new ≡ F.read_faults shelf.old }
    ensures stores { F.store_faults shelf.new ≡ F.store_faults shelf.old }
    ensures kept_reads { F.kept_faults shelf.old ≤ F.kept_faults shelf.new }
{
    let limit = MAX_FILE_BYTES as usize;
    let mut bytes = Vec::new(alloc);
    let mut piece = zeros(alloc, PIECE)?;
    while bytes.len() <= limit {
        let room = PIECE.min(limit + 1 - bytes.len());
        if read_on(shelf, name, &mut bytes, &mut piece[..room])? == 0 {
            return Ok(bytes);
        }
    }
    Err(OrMemory::Cause(Unread::TooBig))
}

// A buffer of so many bytes.
fn zeros(alloc: Global, len: usize) -> Result<Vec<u8>, AllocError>
    ensures { IfOk result (λ buffer. vec_len buffer ≡ len) }
{
    vec![in alloc; 0u8; len]
}

// Reads the next bytes that are kept behind those that were read, as many as the piece has room for at most, and says how many
// they were: 0 only at the end.
fn read_on<F: Shelf>(
    shelf: &mut F,
    name: &str,
    bytes: &mut Vec<u8>,
    piece: &mut [u8],
) -> Result<usize, OrMemory<Unread>>
    requires { 0 < length piece.old }
    ensures more { IfOk result (λ n. vec_len bytes.new ≡ vec_len bytes.old + n) }
    ensures within { IfOk result (λ n. n ≤ length piece.old) }
    ensures first { IfOk result (λ _. HoldsFirst (F.files shelf.old) name.now bytes.old.items → HoldsFirst (F.files shelf.old) name.now bytes.new.items) }
    ensures end { IfOk result (λ n. n ≡ 0 → HoldsFirst (F.files shelf.old) name.now bytes.old.items → Holds (F.files shelf.old) name.now bytes.new.items) }
    ensures not_too_big { result ≡ Err (stops.Cause unread.TooBig) → ⊥ }
    ensures fault { result ≡ Err (stops.Cause unread.Fault) → Rose (F.kept_faults shelf.old) (F.kept_faults shelf.new) }
    ensures kept { SameFiles (F.files shelf.old) (F.files shelf.new) }
    ensures reads { F.read_faults shelf.new ≡ F.read_faults shelf.old }
    ensures stores { F.store_faults shelf.new ≡ F.store_faults shelf.old }
    ensures kept_reads { F.kept_faults shelf.old ≤ F.kept_faults shelf.new }
{
    let Ok(count) = shelf.read_kept(name, bytes.len() as u64, piece) else {
        return Err(OrMemory::Cause(Unread::Fault));
    };
    bytes.extend_from_slice(&piece[..count])?;
    Ok(count)
}
