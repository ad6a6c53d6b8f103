//! The entries of a run of units (DWARF 5, section 6.1.1.1).

ghost use Rattle.std.specs.Prelude.{◌≡◌, ◌<◌, length, map, IfOk};
ghost use Rattle.std.specs.Arc.{arc_value};
ghost use Rattle.index_model.specs.Entries.{entries_of};
ghost use Rattle.qualified_names.specs.Files.{AreLinkedOfFile, ForLinkedRun};
ghost use Rattle.qualified_names.specs.Indexed.{ForLinksOf, HaveLinks};

use crate::entry::push_entries;
use crate::names::QualifiedNames;
use file_image::Image;
use index_model::{Linked, LinkedEntry, List, Run, Shard};
use ix_base::NoMemory;
use std::alloc::Global;
use std::sync::Arc;

// How many bytes the names of all runs may have that are put together, and those of one run at the least. A short file may put
// one long scope before many names, and an index has 4 GiB at most.
const FORMED: u64 = 1 << 32;

const FORMED_IN_RUN: u64 = 1 << 28;

/// The entries of run `k`, in section order, each with its linkage entry behind it. The shards are those of consecutive runs
/// that make up all units of the image's file, and the links are what the references of these runs give.
///
/// The name of an entry is its qualified name, and its simple name are the last `tail` bytes of that. In C++ the components of
/// the scope path stand before the name, joined by `::`; in Ada the name is decoded; in other languages it is as it is
/// spelled. A linkage entry has the linkage name of a subprogram or variable, where that isn't the qualified name, and no
/// simple name. A name that stands in the file as it is isn't copied.
///
/// # Errors
///
/// `NoMemory` where memory was refused, or where names that are put together have more bytes than 4 GiB shared among the runs, and
/// than 256 MiB.
pub fn run_of<'f>(
    alloc: Global,
    image: &Image<'f>,
    shards: &[Arc<Shard<'f>>],
    linked: &[Arc<Linked<'f>>],
    k: usize,
) -> Result<Run<'f>, NoMemory>
    requires of_file { AreLinkedOfFile image.now (map arc_value shards.now) (map arc_value linked.now) }
    requires within { k < length shards.now }
    ensures { ForLinkedRun image.now (map arc_value shards.now) (map arc_value linked.now) k (λ p ks. IfOk result (λ run. run ≡ entries_of p ks)) }
{
    let entries = linked[k].entries.as_slice();
    let size = size_of_run(entries);
    if size.formed > most_formed(shards.len()) {
        return Err(NoMemory);
    }
    let mut names = QualifiedNames::new(alloc, image, shards)?;
    entries_of(alloc, &mut names, entries, size.entries)
}

// What the entries of a run take.
#[derive(Clone, Copy)]
struct RunSize {
    // How many there are at most, with linkage entries.
    entries: usize,
    // How many bytes those of their names have that are put together.
    formed: u64,
}

// How many bytes the names of one of so many runs may have that are put together.
fn most_formed(runs: usize) -> u64 {
    (FORMED / (runs.max(1) as u64)).max(FORMED_IN_RUN)
}

// What the entries of a run take, by what the references of its indexed entries give.
fn size_of_run(linked: &[LinkedEntry<'_>]) -> RunSize {
    let mut size = RunSize {
        entries: linked.len(),
        formed: 0,
    };
    for entry in linked {
        if entry.length as usize != entry.name.len() {
            size.formed = size.formed.saturating_add(u64::from(entry.length));
        }
        if entry.linkage.is_some() {
            size.entries = size.entries.saturating_add(1);
        }
    }
    size
}

// The entries of a run, of which there are as many at most.
fn entries_of<'f>(
    alloc: Global,
    names: &mut QualifiedNames<'_, 'f>,
    linked: &[LinkedEntry<'f>],
    most: usize,
) -> Result<Run<'f>, NoMemory>
    requires { HaveLinks names.old linked.now }
    ensures { ForLinksOf names.old linked.now (λ p ks. IfOk result (λ run. run ≡ entries_of p ks)) }
{
    let mut entries = Vec::with_capacity(alloc, most)?;
    for entry in linked {
        push_entries(&mut entries, names, alloc, entry)?;
    }
    Ok(List::of(entries))
}
