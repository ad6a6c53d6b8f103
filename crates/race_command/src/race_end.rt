//! What a race comes to, once both rounds are over.

ghost use Rattle.std.specs.Prelude.{◌≡◌, ◌≤◌, nat_lt, length, flat_map, OnOk, OnErr};
ghost use Rattle.std.specs.List.{list_any};
ghost use Rattle.outside.specs.Counts.{Rose};
ghost use Rattle.outside.specs.Written.{Appends, AppendsPrefix};
ghost use Rattle.race_command.specs.RaceEnds.{fate_of, has_long, has_lost, is_long, is_lost, race_status, texts_of, wants_memory, IsFinished};
ghost use Rattle.race_command.specs.Runners.{round_bytes};
ghost use Rattle.race_command.specs.declared.transcript.TheConstants.{MAX_RACE_BYTES};

use crate::runner::{Round, Runner, Session};
use crate::transcript::MAX_RACE_BYTES;
use command_base::Status;
use index_pool::Ended;
use outside::{Failed, Sink, write_all};
use query_text::SessionFault;

/// What became of a session.
#[derive(Clone, Copy)]
pub(crate) enum Fate {
    /// It answered the whole script.
    Whole,
    /// It stopped at a line that is too long.
    Long,
    /// Memory was refused to it.
    Lost,
}

/// Writes the texts of both rounds, and gives the status. Where memory was refused to a session nothing is written; a line that
/// is too long comes before the end of the build. No session passes its share, but that a sink is still the one that was handed in
/// no clause of a session says: so the texts are measured once more.
pub(crate) fn finish<K: Sink>(out: &mut K, runners: &[Runner<'_, '_>], ended: Ended) -> Status
    ensures finished { IsFinished runners.now ended (K.written out.old) (K.written out.new) (Rose (K.write_faults out.old) (K.write_faults out.new)) result }
    ensures counts { K.write_faults out.old ≤ K.write_faults out.new }
{
    if wants_memory(runners) {
        return Status::Stopped;
    }
    let status = race_status(any_long(runners), ended);
    match write_texts(out, runners) {
        Ok(()) => status,
        Err(Failed) => Status::WriteFault,
    }
}

// A line that is too long comes before the build's end.
fn race_status(long: bool, ended: Ended) -> Status
    ensures { result ≡ race_status long ended }
{
    if long {
        return Status::InputTooLong;
    }
    match ended {
        Ended::Done => Status::Answered,
        Ended::Refused => Status::Refused,
        Ended::Stopped => Status::Stopped,
    }
}

// Whether memory was refused to a session, or the texts are longer together than those of a race may be.
fn wants_memory(runners: &[Runner<'_, '_>]) -> bool
    ensures { result ≡ wants_memory runners.now }
{
    any_lost(runners) || are_too_long(runners)
}

// Whether memory was refused to a session.
fn any_lost(runners: &[Runner<'_, '_>]) -> bool
    ensures { result ≡ list_any has_lost runners.now }
{
    for runner in runners {
        if is_lost(&runner.during) || is_lost(&runner.after) {
            return true;
        }
    }
    false
}

// Whether the texts of both rounds have more bytes than a race may write.
fn are_too_long(runners: &[Runner<'_, '_>]) -> bool
    ensures { result ≡ nat_lt MAX_RACE_BYTES (length (texts_of runners.now)) }
{
    let mut total: u64 = 0;
    for runner in runners {
        total = total.saturating_add(runner.held());
    }
    total > MAX_RACE_BYTES
}

// Whether a session stopped at a line that is too long.
fn any_long(runners: &[Runner<'_, '_>]) -> bool
    ensures { result ≡ list_any has_long runners.now }
{
    for runner in runners {
        if is_long(&runner.during) || is_long(&runner.after) {
            return true;
        }
    }
    false
}

fn is_lost(session: &Session) -> bool
    ensures { result ≡ is_lost (fate_of session.now.ended) }
{
    matches!(fate_of(session.ended), Fate::Lost)
}

fn is_long(session: &Session) -> bool
    ensures { result ≡ is_long (fate_of session.now.ended) }
{
    matches!(fate_of(session.ended), Fate::Long)
}

fn fate_of(ended: Result<(), SessionFault>) -> Fate
    ensures { result ≡ fate_of ended }
{
    match ended {
        Ok(()) => Fate::Whole,
        Err(SessionFault::LineTooLong | SessionFault::InputTooLong | SessionFault::ReadFault) => {
            Fate::Long
        }
        Err(SessionFault::NoMemory | SessionFault::WriteFault) => Fate::Lost,
    }
}

// Writes the texts of the first round, and then those of the second.
fn write_texts<K: Sink>(out: &mut K, runners: &[Runner<'_, '_>]) -> Result<(), Failed>
    ensures ok { OnOk result (Appends (K.written out.old) (K.written out.new) (texts_of runners.now)) }
    ensures failed { OnErr result (Rose (K.write_faults out.old) (K.write_faults out.new)) }
    ensures left { OnErr result (AppendsPrefix (K.written out.old) (K.written out.new) (texts_of runners.now)) }
    ensures counts { K.write_faults out.old ≤ K.write_faults out.new }
{
    write_round(out, Round::During, runners)?;
    write_round(out, Round::After, runners)
}

// Writes the texts of a round, in the order of the readers.
fn write_round<K: Sink>(out: &mut K, round: Round, runners: &[Runner<'_, '_>]) -> Result<(), Failed>
    ensures ok { OnOk result (Appends (K.written out.old) (K.written out.new) (flat_map (round_bytes round) runners.now)) }
    ensures failed { OnErr result (Rose (K.write_faults out.old) (K.write_faults out.new)) }
    ensures left { OnErr result (AppendsPrefix (K.written out.old) (K.written out.new) (flat_map (round_bytes round) runners.now)) }
    ensures counts { K.write_faults out.old ≤ K.write_faults out.new }
{
    for runner in runners {
        write_all(out, runner.session(round).text.bytes())?;
    }
    Ok(())
}
