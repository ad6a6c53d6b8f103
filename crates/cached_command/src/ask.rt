//! An index that is kept is asked.

ghost use Rattle.std.specs.Prelude.{◌≡◌, ◌≤◌, None, Some, option_map};
ghost use Rattle.outside.specs.Counts.{Rose};
ghost use Rattle.outside.specs.Files.{SameFiles};
ghost use Rattle.query_text.specs.Questions.{question_seen};
ghost use Rattle.command_base.specs.GdbLooks.{offer_gdb};
ghost use Rattle.command_base.specs.Replies.{Wrote};
ghost use Rattle.cached_command.specs.Places.{place_seen};
ghost use Rattle.cached_command.specs.Askings.{CausesOfHit, IsMissedAt, OnEnded, OnMissed, SaysHit};

use crate::kept::read_kept;
use crate::place::KeptFile;
use crate::tell::tell;
use command_base::{Status, Unread, ended};
use index_cache::open;
use ix_base::{Fault, OrMemory};
use outside::{Shelf, Sink};
use query_text::Question;
use reach_model::code::KEPT_TOO_LARGE;
use std::alloc::Global;

/// What came of asking an index that is kept.
#[derive(Clone, Copy)]
pub(crate) enum Asked {
    /// It answered, or memory was refused.
    Ended(Status),
    /// What is kept has this fault, or nothing was read.
    Missed(Option<Fault>),
}

/// Writes the answer of the index that is kept at a place, if there is one.
pub(crate) fn ask<F: Shelf, K: Sink>(
    alloc: Global,
    place: Option<&KeptFile<'_>>,
    question: &Question<'_>,
    shelf: &mut F,
    out: &mut K,
) -> Asked
    requires { offer_gdb (question_seen question.now).query ≡ Some (question_seen question.now).query }
    ensures wrote { OnEnded result (λ status. Wrote (SaysHit (F.files shelf.old) (option_map (λ p. place_seen p.now) place.entry) (question_seen question.now)) status (K.written out.old) (K.written out.new)) }
    ensures causes { OnEnded result (CausesOfHit (Rose (K.write_faults out.old) (K.write_faults out.new))) }
    ensures missed { OnMissed result (IsMissedAt (F.files shelf.old) (option_map (λ p. place_seen p.now) place.entry) (Rose (F.kept_faults shelf.old) (F.kept_faults shelf.new))) }
    ensures quiet { OnMissed result (λ _. out.new ≡ out.old) }
    ensures untouched { place.entry ≡ None → shelf.new ≡ shelf.old }
    ensures same { SameFiles (F.files shelf.old) (F.files shelf.new) }
    ensures reads { F.read_faults shelf.new ≡ F.read_faults shelf.old }
    ensures stores { F.store_faults shelf.new ≡ F.store_faults shelf.old }
    ensures kept_reads { F.kept_faults shelf.old ≤ F.kept_faults shelf.new }
    ensures counts { K.write_faults out.old ≤ K.write_faults out.new }
{
    match place {
        Some(place) => ask_at(alloc, place, question, shelf, out),
        None => Asked::Missed(None),
    }
}

// Writes the answer of the index that is kept at this place.
fn ask_at<F: Shelf, K: Sink>(
    alloc: Global,
    place: &KeptFile<'_>,
    question: &Question<'_>,
    shelf: &mut F,
    out: &mut K,
) -> Asked
    requires { offer_gdb (question_seen question.now).query ≡ Some (question_seen question.now).query }
    ensures wrote { OnEnded result (λ status. Wrote (SaysHit (F.files shelf.old) (Some (place_seen place.now)) (question_seen question.now)) status (K.written out.old) (K.written out.new)) }
    ensures causes { OnEnded result (CausesOfHit (Rose (K.write_faults out.old) (K.write_faults out.new))) }
    ensures missed { OnMissed result (IsMissedAt (F.files shelf.old) (Some (place_seen place.now)) (Rose (F.kept_faults shelf.old) (F.kept_faults shelf.new))) }
    ensures quiet { OnMissed result (λ _. out.new ≡ out.old) }
    ensures same { SameFiles (F.files shelf.old) (F.files shelf.new) }
    ensures reads { F.read_faults shelf.new ≡ F.read_faults shelf.old }
    ensures stores { F.store_faults shelf.new ≡ F.store_faults shelf.old }
    ensures kept_reads { F.kept_faults shelf.old ≤ F.kept_faults shelf.new }
    ensures counts { K.write_faults out.old ≤ K.write_faults out.new }
{
    match read_kept(alloc, shelf, place.name.as_str()) {
        Ok(bytes) => match open(alloc, &bytes, place.id) {
            Ok(index) => Asked::Ended(ended(
                tell(b"hit\n", &index, question, out),
                Status::Answered,
            )),
            Err(fault) => Asked::Missed(Some(fault)),
        },
        Err(OrMemory::Cause(Unread::Fault)) => Asked::Missed(None),
        Err(OrMemory::Cause(Unread::TooBig)) => Asked::Missed(Some(Fault {
            code: KEPT_TOO_LARGE,
            at: 0,
        })),
        Err(OrMemory::Memory) => Asked::Ended(Status::NoMemory),
    }
}
