//! The side of `serve` that answers.

ghost use Rattle.std.specs.Prelude.{◌≡◌, ◌≤◌, false, IfErr};
ghost use Rattle.outside.specs.Counts.{Rose};
ghost use Rattle.index_model.specs.Stages.{initial, IsReachable};
ghost use Rattle.index_model.specs.declared.job.CacheKind.TheVariants.{Gdb8};
ghost use Rattle.stage_lock.specs.Seen.{IsPassOf};
ghost use Rattle.session_base.specs.Heard.{heard};
ghost use Rattle.serve_command.specs.Listens.{CausesOfSession, Listened, status_at, status_behind, status_of};

use command_base::Status;
use index_board::{Pass, Reader};
use index_pool::Ended;
use name_quotes::Spelling;
use outside::{Gate, Sink, Source};
use query_text::{LineBuf, SessionFault, session};
use std::sync::Wait;

/// The reader of a session, and the room for its lines.
#[derive(Drop)]
pub(crate) struct Listener<'b, 'f> {
    pub reader: Reader<'b, 'f>,
    pub line: LineBuf,
}

impl<'f> Listener<'_, 'f> {
    /// Waits for a mark of at least the stage, and answers the lines of the input. May wait.
    pub(crate) fn listen<R: Wait, S: Source, K: Sink, G: Gate>(
        &mut self,
        rt: &R,
        wait: u8,
        spelling: Spelling,
        input: &mut S,
        out: &mut K,
        gate: &G,
    ) -> Result<(), SessionFault>
        requires wait { wait ≤ 3 }
        requires kind { self.old.reader.board.subject.cache ≡ Gdb8 }
        requires reached { IsReachable initial self.old.reader.pass.floor }
        ensures text { Listened spelling self.old.reader.board.subject.file wait (heard S.left S.read_faults input.old input.new) (K.written out.old) (K.written out.new) self.new.reader.pass.floor result }
        ensures causes { IfErr result (λ fault. CausesOfSession (Rose (K.write_faults out.old) (K.write_faults out.new)) (status_of fault)) }
        ensures board { self.new.reader.board ≡ self.old.reader.board }
        ensures counts { K.write_faults out.old ≤ K.write_faults out.new }
    {
        wait_for(rt, &mut self.reader, wait);
        session(
            rt,
            0,
            spelling,
            &mut self.reader,
            input,
            out,
            &mut self.line,
            gate,
        )
    }

    /// The reader's pass.
    pub(crate) fn end(self) -> Pass<'f>
        ensures pass { result ≡ self.entry.reader.pass }
        ensures own { IsPassOf self.entry.reader.board result }
        ensures idle { result.holding ≡ false }
    {
        let Listener { reader, .. } = self;
        reader.end()
    }
}

// Waits for a mark of at least the stage, unless it is 0.
fn wait_for<R: Wait>(rt: &R, reader: &mut Reader<'_, '_>, stage: u8)
    requires { stage ≤ 3 }
    ensures board { reader.new.board ≡ reader.old.board }
    ensures least { stage ≤ reader.new.pass.floor }
    ensures reach { IsReachable reader.old.pass.floor reader.new.pass.floor }
{
    if stage > 0 {
        reader.wait(rt, stage);
    }
}

/// The status: that of the session where it stopped, else that of the build.
pub(crate) fn status_behind(listened: Result<(), SessionFault>, ended: Ended) -> Status
    ensures { result ≡ status_behind listened ended }
{
    match listened {
        Ok(()) => status_at(ended),
        Err(fault) => status_of(fault),
    }
}

// The status of a session that stopped.
fn status_of(fault: SessionFault) -> Status
    ensures { result ≡ status_of fault }
{
    match fault {
        SessionFault::ReadFault => Status::InputFault,
        SessionFault::WriteFault => Status::WriteFault,
        SessionFault::LineTooLong | SessionFault::InputTooLong => Status::InputTooLong,
        SessionFault::NoMemory => Status::Stopped,
    }
}

// The status of a build's end.
fn status_at(ended: Ended) -> Status
    ensures { result ≡ status_at ended }
{
    match ended {
        Ended::Done => Status::Answered,
        Ended::Refused => Status::Refused,
        Ended::Stopped => Status::Stopped,
    }
}
