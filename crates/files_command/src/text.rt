//! What `files` writes.

ghost use Rattle.std.specs.Prelude.{◌≡◌, ◌++◌, [], ◌∷◌, codes, decimal, flat_map, IfOk};
ghost use Rattle.std.specs.String.{string_bytes};
ghost use Rattle.index_model.specs.Texts.{hex, line};
ghost use Rattle.reach_model.specs.FileTexts.{text_of_files_fault, text_of_hit, text_of_hits};
ghost use Rattle.line_files.specs.Found.{hit_seen, hits_seen};

use ix_base::Fault;
use line_files::FileHit;
use std::alloc::{AllocError, Global};

/// How many files were found, and each of them on a line of its own.
pub(crate) fn hits_text(alloc: Global, hits: &[FileHit<'_>]) -> Result<Vec<u8>, AllocError>
    ensures { IfOk result (λ text. text.items ≡ text_of_hits (hits_seen hits.now)) }
{
    let mut text = count_line(alloc, hits.len())?;
    push_hits(alloc, &mut text, hits)?;
    Ok(text)
}

// The line that says how many files were found.
fn count_line(alloc: Global, count: usize) -> Result<Vec<u8>, AllocError>
    ensures { IfOk result (λ text. text.items ≡ line (codes "found" ∷ decimal count ∷ [])) }
{
    let line = format!(in alloc; "found {count}\n")?;
    Ok(line.into_bytes())
}

// The lines of files, behind what was there.
fn push_hits(alloc: Global, text: &mut Vec<u8>, hits: &[FileHit<'_>]) -> Result<(), AllocError>
    ensures { IfOk result (λ _. text.new.items ≡ text.old.items ++ flat_map (λ hit. text_of_hit (hit_seen hit)) hits.now) }
{
    for hit in hits {
        push_hit(alloc, text, hit)?;
    }
    Ok(())
}

// The line of a file, behind others.
fn push_hit(alloc: Global, text: &mut Vec<u8>, hit: &FileHit<'_>) -> Result<(), AllocError>
    ensures { IfOk result (λ _. text.new.items ≡ text.old.items ++ text_of_hit (hit_seen hit.now)) }
{
    let unit = hit.unit;
    let index = hit.file.index;
    let dir = hit.file.dir;
    let front = format!(in alloc; "{unit} {index} {dir} ")?;
    text.extend_from_slice(front.as_bytes())?;
    text.extend_from_slice(hit.file.name)?;
    text.push(b'\n')?;
    Ok(())
}

/// The line of a table with a fault: its code and its place.
pub(crate) fn refusal_line(alloc: Global, fault: Fault) -> Result<String, AllocError>
    ensures { IfOk result (λ line. string_bytes line ≡ text_of_files_fault fault) }
{
    let code = fault.code;
    let place = hex_word(alloc, fault.at)?;
    let line = format!(in alloc; "files refused {code} {place}\n")?;
    Ok(line)
}

// A number in lower-case hexadecimal.
fn hex_word(alloc: Global, number: u64) -> Result<String, AllocError>
    ensures { IfOk result (λ word. string_bytes word ≡ hex number) }
{
    format!(in alloc; "{number:x}")
}
