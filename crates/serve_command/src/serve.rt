//! `serve`: a session over the input while the index is built.

ghost use Rattle.std.specs.Prelude.{◌≡◌, ◌<◌, ◌≤◌, false, length, IfErr};
ghost use Rattle.ix_base.specs.declared.limits.TheConstants.{MAX_FILE_BYTES};
ghost use Rattle.outside.specs.Counts.{Rose};
ghost use Rattle.index_model.specs.Stages.{initial, IsReachable};
ghost use Rattle.index_model.specs.declared.job.CacheKind.TheVariants.{Gdb8};
ghost use Rattle.stage_core.specs.Machines.{FitsFile};
ghost use Rattle.stage_lock.specs.Seen.{IsPassOf};
ghost use Rattle.index_pool.specs.Ends.{stage_at_end, IsLast};
ghost use Rattle.command_base.specs.Replies.{Wrote};
ghost use Rattle.session_base.specs.Heard.{heard};
ghost use Rattle.serve_command.specs.Listens.{CausesOfSession, Listened, status_of};
ghost use Rattle.serve_command.specs.SessionResults.{SaysServe};

use crate::listen::{Listener, status_behind};
use command_base::Status;
use index_board::{Board, Pass};
use index_model::CacheKind;
use index_pool::{Crew, Ended, build};
use name_quotes::Spelling;
use outside::{Gate, Sink, Source};
use query_text::{LineBuf, SessionFault};
use std::sync::Wait;
use std::thread::{Threads, join_mut};

/// Builds the index of the file's bytes, and answers the lines of the input meanwhile. The session begins after a mark of at least
/// this stage, and writes names in this spelling.
pub fn serve_file<R: Threads + Wait + Sync, S: Source + Send, K: Sink + Send, G: Gate + Sync>(
    crew: &Crew<'_, R, G>,
    file: &[u8],
    wait: u8,
    spelling: Spelling,
    input: &mut S,
    out: &mut K,
) -> Status
    requires small { length file.now ≤ MAX_FILE_BYTES }
    requires some { 0 < crew.now.workers }
    requires few { crew.now.workers ≤ 64 }
    requires wait { wait ≤ 3 }
    ensures wrote { Wrote (SaysServe spelling file.now wait (heard S.left S.read_faults input.old input.new)) result (K.written out.old) (K.written out.new) }
    ensures causes { CausesOfSession (Rose (K.write_faults out.old) (K.write_faults out.new)) result }
    ensures counts { K.write_faults out.old ≤ K.write_faults out.new }
{
    let line = match LineBuf::new(crew.alloc) {
        Ok(line) => line,
        Err(_) => return Status::Stopped,
    };
    match crew.open(file, CacheKind::Gdb8) {
        Ok((board, mut pass)) => {
            let status = serve_board(crew, &board, &mut pass, line, wait, spelling, input, out);
            board.close(pass);
            status
        }
        Err(_) => Status::Stopped,
    }
}

// The session over a board that isn't built yet.
fn serve_board<'f, R: Threads + Wait + Sync, S: Source + Send, K: Sink + Send, G: Gate + Sync>(
    crew: &Crew<'_, R, G>,
    board: &Board<'f>,
    pass: &mut Pass<'f>,
    line: LineBuf,
    wait: u8,
    spelling: Spelling,
    input: &mut S,
    out: &mut K,
) -> Status
    requires own { IsPassOf board.now pass.old }
    requires idle { pass.old.holding ≡ false }
    requires kind { board.now.subject.cache ≡ Gdb8 }
    requires reached { IsReachable initial pass.old.floor }
    requires some { 0 < crew.now.workers }
    requires few { crew.now.workers ≤ 64 }
    requires wait { wait ≤ 3 }
    ensures own { IsPassOf board.now pass.new }
    ensures idle { pass.new.holding ≡ false }
    ensures wrote { Wrote (SaysServe spelling board.now.subject.file wait (heard S.left S.read_faults input.old input.new)) result (K.written out.old) (K.written out.new) }
    ensures causes { CausesOfSession (Rose (K.write_faults out.old) (K.write_faults out.new)) result }
    ensures counts { K.write_faults out.old ≤ K.write_faults out.new }
{
    let reader = board.reader(pass);
    let mut listener = Listener { reader, line };
    let (listened, ended) = listen_beside(
        crew,
        board,
        pass,
        &mut listener,
        wait,
        spelling,
        input,
        out,
    );
    board.join(pass, listener.end());
    status_behind(listened, ended)
}

// Listens, and builds meanwhile.
fn listen_beside<'f, R: Threads + Wait + Sync, S: Source + Send, K: Sink + Send, G: Gate + Sync>(
    crew: &Crew<'_, R, G>,
    board: &Board<'f>,
    pass: &mut Pass<'f>,
    listener: &mut Listener<'_, 'f>,
    wait: u8,
    spelling: Spelling,
    input: &mut S,
    out: &mut K,
) -> (Result<(), SessionFault>, Ended)
    requires own { IsPassOf board.now pass.old }
    requires idle { pass.old.holding ≡ false }
    requires some { 0 < crew.now.workers }
    requires few { crew.now.workers ≤ 64 }
    requires wait { wait ≤ 3 }
    requires kind { listener.old.reader.board.subject.cache ≡ Gdb8 }
    requires reached { IsReachable initial listener.old.reader.pass.floor }
    ensures text { Listened spelling listener.old.reader.board.subject.file wait (heard S.left S.read_faults input.old input.new) (K.written out.old) (K.written out.new) listener.new.reader.pass.floor result.0 }
    ensures causes { IfErr result.0 (λ fault. CausesOfSession (Rose (K.write_faults out.old) (K.write_faults out.new)) (status_of fault)) }
    ensures board { listener.new.reader.board ≡ listener.old.reader.board }
    ensures counts { K.write_faults out.old ≤ K.write_faults out.new }
    ensures own { IsPassOf board.now pass.new }
    ensures idle { pass.new.holding ≡ false }
    ensures ended { pass.new.floor ≡ stage_at_end result.1 }
    ensures last { IsLast pass.new.floor }
    ensures fits { FitsFile board.now.subject pass.new.floor }
{
    let Crew {
        rt,
        alloc,
        workers,
        gate,
    } = *crew;
    // Where no thread can be made, the second of both goes first: the build, for which the session may wait.
    join_mut(
        rt,
        &mut ||
            requires wait { wait ≤ 3 }
            requires kind { listener.now.reader.board.subject.cache ≡ Gdb8 }
            requires reached { IsReachable initial listener.now.reader.pass.floor }
        { listener.listen(rt, wait, spelling, input, out, gate) },
        &mut ||
            requires own { IsPassOf board.now pass.now }
            requires idle { pass.now.holding ≡ false }
            requires some { 0 < workers }
            requires few { workers ≤ 64 }
        { build(rt, alloc, board, pass, workers, gate) },
    )
}
