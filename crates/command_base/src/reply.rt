//! The reply that is the result of a command.

ghost use Rattle.std.specs.Prelude.{◌≡◌, ◌≤◌, ◌⊎◌};
ghost use Rattle.outside.specs.Counts.{Rose};
ghost use Rattle.index_model.specs.Answers.{Refused as Refuses};
ghost use Rattle.index_model.specs.Seen.{reply_seen};
ghost use Rattle.query_text.specs.Places.{PlacesFit};
ghost use Rattle.query_text.specs.Spelled.{reply_in};
ghost use Rattle.command_base.specs.Replies.{CausesOfResult, SaysReply, Wrote, status_after, status_of_reply};
ghost use Rattle.command_base.specs.declared.status.Status.TheVariants as statuses;

use crate::status::Status;
use index_model::Reply;
use ix_base::Fault;
use name_quotes::Spelling;
use outside::{Failed, Sink};
use query_text::write_reply;

/// Writes the first fault of a file. Takes no memory.
pub fn refuse<K: Sink>(out: &mut K, fault: Fault) -> Status
    ensures status { (result ≡ statuses.Refused) ⊎ (result ≡ statuses.WriteFault) }
    ensures wrote { Wrote (SaysReply (Refuses fault)) result (K.written out.old) (K.written out.new) }
    ensures causes { CausesOfResult (Rose (K.write_faults out.old) (K.write_faults out.new)) result }
    ensures counts { K.write_faults out.old ≤ K.write_faults out.new }
{
    write(out, Spelling::Plain, &Reply::Refused(fault))
}

/// Writes a reply that is a result, with its names as they are written. Takes no memory: it says that memory was refused where a build gave no reply.
pub fn write<K: Sink>(out: &mut K, spelling: Spelling, reply: &Reply<'_>) -> Status
    requires { PlacesFit (reply_seen reply.now) }
    ensures status { (result ≡ status_of_reply (reply_seen reply.now)) ⊎ (result ≡ statuses.WriteFault) }
    ensures wrote { Wrote (SaysReply (reply_in spelling (reply_seen reply.now))) result (K.written out.old) (K.written out.new) }
    ensures causes { CausesOfResult (Rose (K.write_faults out.old) (K.write_faults out.new)) result }
    ensures counts { K.write_faults out.old ≤ K.write_faults out.new }
{
    match reply {
        Reply::Answer(_) => ended(write_reply(out, spelling, reply), Status::Answered),
        Reply::Refused(_) => ended(write_reply(out, spelling, reply), Status::Refused),
        Reply::Pending | Reply::Stopped => Status::NoMemory,
    }
}

/// The status once a result was to be written.
pub fn ended(written: Result<(), Failed>, status: Status) -> Status
    ensures { result ≡ status_after written status }
{
    match written {
        Ok(()) => status,
        Err(Failed) => Status::WriteFault,
    }
}
