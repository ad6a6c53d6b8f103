//! The pieces that are placed behind the bytes of a program, each from the next multiple of 8 on.

ghost use Rattle.std.specs.Prelude.{◌≡◌, ◌<◌, ◌++◌, length, map, IfOk, OnOk};
ghost use Rattle.reach_model.specs.Added.{padded, padding, with_pieces};
ghost use Rattle.elf_add.specs.Pieces.{content_of, grown_bytes, names_of};

use ix_base::NoMemory;

/// A section that is added: its name, without a zero, and its bytes.
#[derive(Clone, Copy)]
pub(crate) struct NewSection<'f> {
    pub(crate) name: &'f [u8],
    pub(crate) content: &'f [u8],
}

/// A section of the file that gets bytes behind its own.
#[derive(Clone, Copy)]
pub(crate) struct Grown<'f> {
    /// The index of its header.
    pub(crate) index: usize,
    /// Its own bytes.
    pub(crate) bytes: &'f [u8],
    pub(crate) more: &'f [u8],
}

/// A section of the file whose bytes were placed anew.
#[derive(Clone, Copy)]
pub(crate) struct Moved {
    /// The index of its header.
    pub(crate) index: usize,
    /// Where its bytes begin in the file.
    pub(crate) at: usize,
    pub(crate) size: usize,
}

/// A piece begins at a multiple of this.
pub(crate) const ALIGNMENT: usize = 8;

/// Appends zeros up to a multiple of 8.
#[tactic(auto, unfolding(reach_model::specs::Added::padded))]
pub(crate) fn pad(bytes: &mut Vec<u8>) -> Result<(), NoMemory>
    ensures { OnOk result (bytes.new.items ≡ padded bytes.old.items) }
{
    const ZEROS: [u8; ALIGNMENT] = [0; ALIGNMENT];
    bytes.extend_from_slice(&ZEROS[..padding(bytes.len())])?;
    Ok(())
}

/// How many zeros lead from a place to the next multiple of 8.
pub(crate) fn padding(place: usize) -> usize
    ensures value { result ≡ padding place }
    ensures few { result < 8 }
{
    (ALIGNMENT - place % ALIGNMENT) % ALIGNMENT
}

/// Appends the bytes of the sections as pieces.
pub(crate) fn push_pieces(bytes: &mut Vec<u8>, sections: &[NewSection<'_>]) -> Result<(), NoMemory>
    ensures { OnOk result (bytes.new.items ≡ with_pieces bytes.old.items (map content_of sections.now)) }
{
    for section in sections {
        pad(bytes)?;
        bytes.extend_from_slice(section.content)?;
    }
    Ok(())
}

/// Appends the bytes of a section that grows as a piece, with the names of the added sections behind.
pub(crate) fn push_grown<'f>(
    bytes: &mut Vec<u8>,
    section: &Grown<'f>,
    named: &[NewSection<'f>],
) -> Result<Moved, NoMemory>
    ensures bytes { OnOk result (bytes.new.items ≡ padded bytes.old.items ++ grown_bytes section.now named.now) }
    ensures moved { IfOk result (λ m. m ≡ record { index = section.now.index; at = length (padded bytes.old.items); size = length (grown_bytes section.now named.now) }) }
{
    pad(bytes)?;
    let at = bytes.len();
    bytes.extend_from_slice(section.bytes)?;
    bytes.extend_from_slice(section.more)?;
    push_names(bytes, named)?;
    let size = bytes.len() - at;
    Ok(Moved {
        index: section.index,
        at,
        size,
    })
}

// Appends the names, each with the zero that ends it (gABI, "String Table").
fn push_names(bytes: &mut Vec<u8>, sections: &[NewSection<'_>]) -> Result<(), NoMemory>
    ensures { OnOk result (bytes.new.items ≡ bytes.old.items ++ names_of sections.now) }
{
    for section in sections {
        bytes.extend_from_slice(section.name)?;
        bytes.push(0)?;
    }
    Ok(())
}
