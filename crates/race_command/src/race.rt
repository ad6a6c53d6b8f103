//! `race`: sessions of several readers over a script, while the index is built and after it.

ghost use Rattle.std.specs.Prelude.{◌≡◌, ◌<◌, ◌≤◌, false, length, All};
ghost use Rattle.ix_base.specs.declared.limits.TheConstants.{MAX_FILE_BYTES};
ghost use Rattle.outside.specs.Counts.{Rose};
ghost use Rattle.index_model.specs.Stages.{initial, IsReachable};
ghost use Rattle.index_model.specs.declared.job.CacheKind.TheVariants.{Gdb8};
ghost use Rattle.stage_lock.specs.Seen.{IsPassOf};
ghost use Rattle.command_base.specs.Replies.{Wrote};
ghost use Rattle.race_command.specs.RaceEnds.{CausesOfRace};
ghost use Rattle.race_command.specs.Races.{SaysRace};
ghost use Rattle.race_command.specs.Runners.{IsFresh};
ghost use Rattle.race_command.specs.Transcripts.{AppendsAtMost};
ghost use Rattle.race_command.specs.declared.script.TheConstants.{MAX_SCRIPT_BYTES};
ghost use Rattle.race_command.specs.declared.transcript.TheConstants.{MAX_RACE_BYTES};

use crate::race_end::finish;
use crate::rounds::{answer_all, gather, race_beside, tell};
use crate::runner::{Round, Runner};
use command_base::Status;
use index_board::{Board, Pass};
use index_model::CacheKind;
use index_pool::Crew;
use name_quotes::Spelling;
use outside::{Gate, Sink};
use std::sync::Wait;
use std::thread::Threads;

/// Builds the index of the file's bytes, and answers the lines of the script meanwhile and after it, for each of the readers, with names as they are written.
pub fn race_file<R: Threads + Wait + Sync, K: Sink, G: Gate + Sync>(
    crew: &Crew<'_, R, G>,
    file: &[u8],
    script: &[u8],
    readers: u32,
    spelling: Spelling,
    out: &mut K,
) -> Status
    requires small { length file.now ≤ MAX_FILE_BYTES }
    requires script { length script.now ≤ MAX_SCRIPT_BYTES }
    requires one_worker { 0 < crew.now.workers }
    requires few_workers { crew.now.workers ≤ 64 }
    requires one_reader { 0 < readers }
    requires few_readers { readers ≤ 16 }
    ensures wrote { Wrote (SaysRace spelling file.now readers script.now) result (K.written out.old) (K.written out.new) }
    ensures limit { AppendsAtMost MAX_RACE_BYTES (K.written out.old) (K.written out.new) }
    ensures causes { CausesOfRace (Rose (K.write_faults out.old) (K.write_faults out.new)) result }
    ensures counts { K.write_faults out.old ≤ K.write_faults out.new }
{
    match crew.open(file, CacheKind::Gdb8) {
        Ok((board, mut pass)) => {
            let status = race_board(crew, &board, &mut pass, script, readers, spelling, out);
            board.close(pass);
            status
        }
        Err(_) => Status::Stopped,
    }
}

// Both rounds over a board that isn't built yet.
fn race_board<'f, R: Threads + Wait + Sync, K: Sink, G: Gate + Sync>(
    crew: &Crew<'_, R, G>,
    board: &Board<'f>,
    pass: &mut Pass<'f>,
    script: &[u8],
    readers: u32,
    spelling: Spelling,
    out: &mut K,
) -> Status
    requires own { IsPassOf board.now pass.old }
    requires idle { pass.old.holding ≡ false }
    requires kind { board.now.subject.cache ≡ Gdb8 }
    requires reached { IsReachable initial pass.old.floor }
    requires script { length script.now ≤ MAX_SCRIPT_BYTES }
    requires one_worker { 0 < crew.now.workers }
    requires few_workers { crew.now.workers ≤ 64 }
    requires one_reader { 0 < readers }
    requires few_readers { readers ≤ 16 }
    ensures own { IsPassOf board.now pass.new }
    ensures idle { pass.new.holding ≡ false }
    ensures wrote { Wrote (SaysRace spelling board.now.subject.file readers script.now) result (K.written out.old) (K.written out.new) }
    ensures limit { AppendsAtMost MAX_RACE_BYTES (K.written out.old) (K.written out.new) }
    ensures causes { CausesOfRace (Rose (K.write_faults out.old) (K.write_faults out.new)) result }
    ensures counts { K.write_faults out.old ≤ K.write_faults out.new }
{
    match gather(crew.alloc, board, pass, readers) {
        Ok(mut runners) => race_readers(crew, board, pass, &mut runners, script, spelling, out),
        Err(_) => Status::Stopped,
    }
}

// Both rounds of these readers.
fn race_readers<'f, R: Threads + Wait + Sync, K: Sink, G: Gate + Sync>(
    crew: &Crew<'_, R, G>,
    board: &Board<'f>,
    pass: &mut Pass<'f>,
    runners: &mut [Runner<'_, 'f>],
    script: &[u8],
    spelling: Spelling,
    out: &mut K,
) -> Status
    requires own { IsPassOf board.now pass.old }
    requires idle { pass.old.holding ≡ false }
    requires kind { board.now.subject.cache ≡ Gdb8 }
    requires reached { IsReachable initial pass.old.floor }
    requires fresh { All (IsFresh board.now pass.old.floor) runners.old }
    requires script { length script.now ≤ MAX_SCRIPT_BYTES }
    requires one_worker { 0 < crew.now.workers }
    requires few_workers { crew.now.workers ≤ 64 }
    requires one_reader { 0 < length runners.old }
    requires few_readers { length runners.old ≤ 16 }
    ensures own { IsPassOf board.now pass.new }
    ensures idle { pass.new.holding ≡ false }
    ensures wrote { Wrote (SaysRace spelling board.now.subject.file (length runners.old) script.now) result (K.written out.old) (K.written out.new) }
    ensures limit { AppendsAtMost MAX_RACE_BYTES (K.written out.old) (K.written out.new) }
    ensures causes { CausesOfRace (Rose (K.write_faults out.old) (K.write_faults out.new)) result }
    ensures counts { K.write_faults out.old ≤ K.write_faults out.new }
{
    let ended = race_beside(crew, board, pass, runners, spelling, script);
    // From here on no reader gets another mark than that of the build's end.
    tell(board, pass, runners);
    answer_all(crew.rt, Round::After, spelling, script, crew.gate, runners);
    finish(out, runners, ended)
}
