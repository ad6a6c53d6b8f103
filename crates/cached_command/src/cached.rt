//! The answer of a program's index that may be kept.

ghost use Rattle.std.specs.Prelude.{◌≡◌, ◌<◌, ◌≤◌, ℕ, List, Some, None, Err, false, length, option_map, IfSome};
ghost use Rattle.ix_base.specs.declared.fault.Fault.{Fault};
ghost use Rattle.ix_base.specs.declared.limits.TheConstants.{MAX_FILE_BYTES};
ghost use Rattle.index_model.specs.declared.job.CacheKind.TheVariants.{Gdb9};
ghost use Rattle.index_model.specs.Cache.{DoesNotFit};
ghost use Rattle.index_model.specs.Faults.{first_fault};
ghost use Rattle.query_text.specs.Questions.{question_seen};
ghost use Rattle.stage_lock.specs.Seen.{IsPassOf};
ghost use Rattle.outside.specs.Counts.{Rose};
ghost use Rattle.outside.specs.Written.{Appends};
ghost use Rattle.reach_model.specs.BuildIds.{IsBuildId};
ghost use Rattle.command_base.specs.GdbLooks.{offer_gdb};
ghost use Rattle.command_base.specs.Replies.{PrefixOf, Wrote};
ghost use Rattle.command_base.specs.Statuses.{status_code};
ghost use Rattle.command_base.specs.declared.status.Status.TheVariants as statuses;
ghost use Rattle.cached_command.specs.Caches.{FaultsEarly, IsCached};
ghost use Rattle.cached_command.specs.Cached.{CausesOfCached, IsCachedMeant, LeavesCached, LooksFirst, SaysCached, SaysTied};
ghost use Rattle.cached_command.specs.Buildings.{CausesOfBuilt, CausesOfSaved, CausesTied, IsRead, SaysBuilt, SaysSaved};
ghost use Rattle.cached_command.specs.Places.{place_seen};

use crate::ask::{Asked, ask};
use crate::place::{KeptFile, place_of};
use crate::save::save;
use crate::tell::{stale_text, tell_behind};
use command_base::{Status, ended, refuse};
use gdbindex_read::GdbIndex;
use index_board::{Board, Pass, Reader};
use index_model::CacheKind;
use index_pool::Crew;
use ix_base::Fault;
use outside::{Gate, Shelf, Sink};
use query_text::Question;
use stage_core::Cache;
use std::alloc::Global;
use std::sync::Wait;
use std::thread::Threads;

/// No kept index answered.
#[derive(Clone, Copy)]
struct Miss<'p> {
    /// Where the index is to be kept, if the program has such a place.
    place: Option<&'p KeptFile<'p>>,
    /// The fault of what is kept there, if it was read.
    stale: Option<Fault>,
}

/// Writes the answer of the kept index of the program in the file's bytes, or else of the index that is built, which is kept then;
/// or the first fault of the file. A fault of its sections or its units' headers comes before anything that is kept is read.
pub fn cached_file<R: Threads + Wait + Sync, F: Shelf, K: Sink, G: Gate + Sync>(
    crew: &Crew<'_, R, G>,
    file: &[u8],
    store: &str,
    question: &Question<'_>,
    shelf: &mut F,
    out: &mut K,
) -> Status
    requires small { length file.now ≤ MAX_FILE_BYTES }
    requires some { 0 < crew.now.workers }
    requires few { crew.now.workers ≤ 64 }
    requires offered { offer_gdb (question_seen question.now).query ≡ Some (question_seen question.now).query }
    ensures wrote { Wrote (SaysCached (F.files shelf.old) file.now store.now (question_seen question.now)) result (K.written out.old) (K.written out.new) }
    ensures causes { CausesOfCached file.now (Rose (K.write_faults out.old) (K.write_faults out.new)) result }
    ensures leaves { LeavesCached file.now store.now (F.files shelf.old) (F.files shelf.new) result }
    ensures tied { result ≡ statuses.Answered → (text : List ℕ) × IsCached (F.files shelf.old) (F.files shelf.new) file.now store.now (question_seen question.now) (Rose (F.kept_faults shelf.old) (F.kept_faults shelf.new)) (Rose (F.store_faults shelf.old) (F.store_faults shelf.new)) text × Appends (K.written out.old) (K.written out.new) text }
    ensures cut { result ≡ statuses.WriteFault → PrefixOf (SaysTied (F.files shelf.old) (F.files shelf.new) file.now store.now (question_seen question.now) (Rose (F.kept_faults shelf.old) (F.kept_faults shelf.new)) (Rose (F.store_faults shelf.old) (F.store_faults shelf.new))) (K.written out.old) (K.written out.new) }
    ensures looks_first { LooksFirst (F.files shelf.old) file.now store.now (Rose (F.kept_faults shelf.old) (F.kept_faults shelf.new)) result }
    ensures untouched { (f : Fault) → FaultsEarly file.now f → shelf.new ≡ shelf.old }
    ensures meant { (Rose (K.write_faults out.old) (K.write_faults out.new) → ⊥) → IsCachedMeant file.now (status_code result) }
    ensures reads { F.read_faults shelf.new ≡ F.read_faults shelf.old }
    ensures stores { F.store_faults shelf.old ≤ F.store_faults shelf.new }
    ensures kept_reads { F.kept_faults shelf.old ≤ F.kept_faults shelf.new }
    ensures counts { K.write_faults out.old ≤ K.write_faults out.new }
{
    match crew.open(file, CacheKind::Gdb9) {
        Ok((board, mut pass)) => {
            let status = answer(crew, &board, &mut pass, store, question, shelf, out);
            board.close(pass);
            status
        }
        Err(_) => Status::NoMemory,
    }
}

// Writes the answer of the kept index of a board's program, or else of the index that is built.
fn answer<'f, R: Threads + Wait + Sync, F: Shelf, K: Sink, G: Gate + Sync>(
    crew: &Crew<'_, R, G>,
    board: &Board<'f>,
    pass: &mut Pass<'f>,
    store: &str,
    question: &Question<'_>,
    shelf: &mut F,
    out: &mut K,
) -> Status
    requires own { IsPassOf board.now pass.old }
    requires idle { pass.old.holding ≡ false }
    requires kind { board.now.subject.cache ≡ Gdb9 }
    requires some { 0 < crew.now.workers }
    requires few { crew.now.workers ≤ 64 }
    requires offered { offer_gdb (question_seen question.now).query ≡ Some (question_seen question.now).query }
    ensures own { IsPassOf board.now pass.new }
    ensures idle { pass.new.holding ≡ false }
    ensures wrote { Wrote (SaysTied (F.files shelf.old) (F.files shelf.new) board.now.subject.file store.now (question_seen question.now) (Rose (F.kept_faults shelf.old) (F.kept_faults shelf.new)) (Rose (F.store_faults shelf.old) (F.store_faults shelf.new))) result (K.written out.old) (K.written out.new) }
    ensures causes { CausesTied (F.files shelf.old) (F.files shelf.new) board.now.subject.file store.now (Rose (F.kept_faults shelf.old) (F.kept_faults shelf.new)) (Rose (K.write_faults out.old) (K.write_faults out.new)) result }
    ensures untouched { (f : Fault) → FaultsEarly board.now.subject.file f → shelf.new ≡ shelf.old }
    ensures reads { F.read_faults shelf.new ≡ F.read_faults shelf.old }
    ensures stores { F.store_faults shelf.old ≤ F.store_faults shelf.new }
    ensures kept_reads { F.kept_faults shelf.old ≤ F.kept_faults shelf.new }
    ensures counts { K.write_faults out.old ≤ K.write_faults out.new }
{
    match place_of(crew.alloc, board.image(), store) {
        Ok(place) => {
            let place = place.as_ref();
            match ask(crew.alloc, place, question, shelf, out) {
                Asked::Ended(status) => status,
                Asked::Missed(stale) => {
                    build(
                        crew,
                        board,
                        pass,
                        Miss { place, stale },
                        question,
                        shelf,
                        out,
                    )
                }
            }
        }
        Err(_) => Status::NoMemory,
    }
}

// Builds the index of a board's program and writes its answer, or the first fault.
fn build<'f, R: Threads + Wait + Sync, F: Shelf, K: Sink, G: Gate + Sync>(
    crew: &Crew<'_, R, G>,
    board: &Board<'f>,
    pass: &mut Pass<'f>,
    miss: Miss<'_>,
    question: &Question<'_>,
    shelf: &mut F,
    out: &mut K,
) -> Status
    requires own { IsPassOf board.now pass.old }
    requires idle { pass.old.holding ≡ false }
    requires kind { board.now.subject.cache ≡ Gdb9 }
    requires some { 0 < crew.now.workers }
    requires few { crew.now.workers ≤ 64 }
    requires id { IfSome miss.place (λ p. IsBuildId p.now.id.now) }
    requires offered { offer_gdb (question_seen question.now).query ≡ Some (question_seen question.now).query }
    ensures own { IsPassOf board.now pass.new }
    ensures idle { pass.new.holding ≡ false }
    ensures wrote { Wrote (SaysBuilt (F.files shelf.old) (F.files shelf.new) (Rose (F.store_faults shelf.old) (F.store_faults shelf.new)) board.now.subject.file (option_map (λ p. place_seen p.now) miss.entry.place) miss.entry.stale (question_seen question.now)) result (K.written out.old) (K.written out.new) }
    ensures causes { CausesOfBuilt (F.files shelf.old) (F.files shelf.new) board.now.subject.file (Rose (K.write_faults out.old) (K.write_faults out.new)) result }
    ensures untouched { (f : Fault) → first_fault board.now.subject.file ≡ Some f → shelf.new ≡ shelf.old }
    ensures reads { F.read_faults shelf.new ≡ F.read_faults shelf.old }
    ensures stores { F.store_faults shelf.old ≤ F.store_faults shelf.new }
    ensures kept_reads { F.kept_faults shelf.new ≡ F.kept_faults shelf.old }
    ensures counts { K.write_faults out.old ≤ K.write_faults out.new }
{
    crew.build(board, pass);
    let mut reader = board.reader(pass);
    let status = match reader.fetch(crew.rt) {
        Ok(()) => publish(crew.alloc, &reader, miss, question, shelf, out),
        Err(_) => Status::NoMemory,
    };
    board.join(pass, reader.end());
    status
}

// Writes the answer of the index that a reader keeps, or the fault.
fn publish<F: Shelf, K: Sink>(
    alloc: Global,
    reader: &Reader<'_, '_>,
    miss: Miss<'_>,
    question: &Question<'_>,
    shelf: &mut F,
    out: &mut K,
) -> Status
    requires kind { reader.now.board.subject.cache ≡ Gdb9 }
    requires id { IfSome miss.place (λ p. IsBuildId p.now.id.now) }
    requires offered { offer_gdb (question_seen question.now).query ≡ Some (question_seen question.now).query }
    ensures wrote { Wrote (SaysBuilt (F.files shelf.old) (F.files shelf.new) (Rose (F.store_faults shelf.old) (F.store_faults shelf.new)) reader.now.board.subject.file (option_map (λ p. place_seen p.now) miss.entry.place) miss.entry.stale (question_seen question.now)) result (K.written out.old) (K.written out.new) }
    ensures causes { CausesOfBuilt (F.files shelf.old) (F.files shelf.new) reader.now.board.subject.file (Rose (K.write_faults out.old) (K.write_faults out.new)) result }
    ensures too_large { reader.now.kept.fault ≡ None → reader.now.kept.cache ≡ Some DoesNotFit → result ≡ statuses.IndexTooLarge }
    ensures untouched { (f : Fault) → first_fault reader.now.board.subject.file ≡ Some f → shelf.new ≡ shelf.old }
    ensures reads { F.read_faults shelf.new ≡ F.read_faults shelf.old }
    ensures stores { F.store_faults shelf.old ≤ F.store_faults shelf.new }
    ensures kept_reads { F.kept_faults shelf.new ≡ F.kept_faults shelf.old }
    ensures counts { K.write_faults out.old ≤ K.write_faults out.new }
{
    if let Some(fault) = reader.parts().fault {
        return refuse(out, fault);
    }
    match reader.cache() {
        Some(Cache::Gdb(bytes)) => save_and_answer(
            alloc,
            bytes.as_slice(),
            miss,
            question,
            shelf,
            out,
        ),
        Some(Cache::Names(_, _)) => unreachable!(),
        Some(Cache::TooLarge) => Status::IndexTooLarge,
        // A build that ended without a fault was refused memory.
        None => Status::NoMemory,
    }
}

// Keeps an index that was built, and writes its answer.
fn save_and_answer<F: Shelf, K: Sink>(
    alloc: Global,
    bytes: &[u8],
    miss: Miss<'_>,
    question: &Question<'_>,
    shelf: &mut F,
    out: &mut K,
) -> Status
    requires read { IsRead bytes.now }
    requires id { IfSome miss.place (λ p. IsBuildId p.now.id.now) }
    requires offered { offer_gdb (question_seen question.now).query ≡ Some (question_seen question.now).query }
    ensures wrote { Wrote (SaysSaved (F.files shelf.old) (F.files shelf.new) (Rose (F.store_faults shelf.old) (F.store_faults shelf.new)) (option_map (λ p. place_seen p.now) miss.entry.place) miss.entry.stale bytes.now (question_seen question.now)) result (K.written out.old) (K.written out.new) }
    ensures causes { CausesOfSaved (F.files shelf.old) (F.files shelf.new) (Rose (K.write_faults out.old) (K.write_faults out.new)) result }
    ensures reads { F.read_faults shelf.new ≡ F.read_faults shelf.old }
    ensures stores { F.store_faults shelf.old ≤ F.store_faults shelf.new }
    ensures kept_reads { F.kept_faults shelf.new ≡ F.kept_faults shelf.old }
    ensures counts { K.write_faults out.old ≤ K.write_faults out.new }
{
    let index = match GdbIndex::open(alloc, bytes) {
        Ok(index) => index,
        Err(_) => unreachable!(),
    };
    let stale = match stale_text(alloc, miss.stale) {
        Ok(stale) => stale,
        Err(_) => return Status::NoMemory,
    };
    match save(alloc, miss.place, bytes, shelf) {
        Ok(saved) => ended(
            tell_behind(stale.as_bytes(), saved.line(), &index, question, out),
            Status::Answered,
        ),
        Err(_) => Status::NoMemory,
    }
}
