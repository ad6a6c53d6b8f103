//! An index is kept.

ghost use Rattle.std.specs.Prelude.{◌≡◌, ◌≤◌, option_map, IfOk, IfSome, OnErr};
ghost use Rattle.outside.specs.Counts.{Rose};
ghost use Rattle.outside.specs.Files.{SameFiles};
ghost use Rattle.reach_model.specs.BuildIds.{IsBuildId};
ghost use Rattle.cached_command.specs.Places.{place_seen};
ghost use Rattle.cached_command.specs.Savings.{text_of_saved, IsSaved};

use crate::place::KeptFile;
use index_cache::make;
use ix_base::NoMemory;
use outside::{Failed, Shelf};
use std::alloc::Global;

/// Whether an index that was built is kept.
#[derive(Clone, Copy)]
pub(crate) enum Saved {
    Stored,
    Unsaved,
}

impl Saved {
    /// Its line.
    pub(crate) fn line(self) -> &'static [u8]
        ensures { result.now ≡ text_of_saved self }
    {
        match self {
            Saved::Stored => b"stored\n",
            Saved::Unsaved => b"unsaved\n",
        }
    }
}

/// Keeps an index at its place, if it has one. All memory is taken before the store.
pub(crate) fn save<F: Shelf>(
    alloc: Global,
    place: Option<&KeptFile<'_>>,
    index: &[u8],
    shelf: &mut F,
) -> Result<Saved, NoMemory>
    requires { IfSome place (λ p. IsBuildId p.now.id.now) }
    ensures saved { IfOk result (IsSaved (F.files shelf.old) (F.files shelf.new) (Rose (F.store_faults shelf.old) (F.store_faults shelf.new)) (option_map (λ p. place_seen p.now) place.entry) index.now) }
    ensures left { OnErr result (SameFiles (F.files shelf.old) (F.files shelf.new)) }
    ensures reads { F.read_faults shelf.new ≡ F.read_faults shelf.old }
    ensures stores { F.store_faults shelf.old ≤ F.store_faults shelf.new }
    ensures kept_reads { F.kept_faults shelf.new ≡ F.kept_faults shelf.old }
{
    let Some(place) = place else {
        return Ok(Saved::Unsaved);
    };
    let kept = make(alloc, place.id, index)?;
    match shelf.store(place.name.as_str(), &kept) {
        Ok(()) => Ok(Saved::Stored),
        Err(Failed) => Ok(Saved::Unsaved),
    }
}
