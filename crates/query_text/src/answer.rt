//! The answer to one line of a session.

ghost use Rattle.std.specs.Prelude.{◌≡◌, ◌≤◌, ℕ, [], ◌∷◌, ◌++◌, IfOk, OnOk, IfErr, OnErr};
ghost use Rattle.outside.specs.Counts.{Rose};
ghost use Rattle.outside.specs.Written.{Appends, AppendsPrefix};
ghost use Rattle.index_model.specs.Answers.{Reply};
ghost use Rattle.index_model.specs.Seen.{query_seen, reply_seen};
ghost use Rattle.index_model.specs.Texts.{text_of_reply};
ghost use Rattle.index_model.specs.Transcripts.{bad_query, digit_of};
ghost use Rattle.query_text.specs.LookLines.{LookStops, look_line};
ghost use Rattle.query_text.specs.Gains.{Gains};
ghost use Rattle.query_text.specs.Places.{PlacesFit};
ghost use Rattle.query_text.specs.Sessions.{Answers, Stops, look_text};
ghost use Rattle.query_text.specs.declared.fault.SessionFault.TheVariants as faults;

use crate::fault::SessionFault;
use crate::query::parse;
use crate::reply::send_reply;
use crate::send::flush;
use crate::waiting::Waiting;
use index_board::Reader;
use index_model::{Look, Query};
use name_quotes::Spelling;
use outside::{Failed, Gate, Sink, write_all};
use std::sync::Wait;

/// Who asks: a session by its number, the line that it is at, and the gate that is told of its replies.
#[derive(Drop)]
pub(crate) struct Asker<'g, G> {
    number: u32,
    line: u64,
    gate: &'g G,
}

impl<'g, G: Gate> Asker<'g, G> {
    /// A session before its first line.
    pub(crate) fn new(number: u32, gate: &'g G) -> Self {
        Asker {
            number,
            line: 0,
            gate,
        }
    }

    /// Goes on to the next line. An input has fewer than 2^32 of them.
    pub(crate) fn next_line(&mut self) {
        self.line = self.line.saturating_add(1);
    }

    fn has_reply<R: Wait>(&self, rt: &R, stage: u8) {
        self.gate.asked(rt, self.number, self.line, stage);
    }
}

/// Writes the reply to one line. A bad query makes no mark and is not told to the gate.
pub(crate) fn answer<R: Wait, K: Sink, G: Gate>(
    rt: &R,
    asker: &Asker<'_, G>,
    spelling: Spelling,
    reader: &mut Reader<'_, '_>,
    out: &mut K,
    line: &[u8],
) -> Result<(), SessionFault>
    ensures ok { OnOk result (Answers spelling reader.old reader.new (K.written out.old) (K.written out.new) (line.now ∷ [])) }
    ensures err { IfErr result (λ fault. Stops spelling reader.old reader.new (K.written out.old) (K.written out.new) (K.write_faults out.old) (K.write_faults out.new) (line.now ∷ []) fault) }
    ensures counts { K.write_faults out.old ≤ K.write_faults out.new }
{
    let Some(query) = parse(line) else {
        return write_bad_query(out);
    };
    let stage = look_up(rt, spelling, reader, out, &query)?;
    asker.has_reply(rt, stage);
    Ok(())
}

// The reply to a line that is no query.
fn write_bad_query<K: Sink>(out: &mut K) -> Result<(), SessionFault>
    ensures ok { OnOk result (Appends (K.written out.old) (K.written out.new) bad_query) }
    ensures err { IfErr result (λ fault. fault ≡ faults.WriteFault) }
    ensures failed { OnErr result (Rose (K.write_faults out.old) (K.write_faults out.new)) }
    ensures left { OnErr result (AppendsPrefix (K.written out.old) (K.written out.new) bad_query) }
    ensures counts { K.write_faults out.old ≤ K.write_faults out.new }
{
    match write_all(out, b"- bad query\n") {
        Ok(()) => Ok(()),
        Err(Failed) => Err(SessionFault::WriteFault),
    }
}

// One look-up, at one mark, and its reply. Answers the mark.
fn look_up<R: Wait, K: Sink>(
    rt: &R,
    spelling: Spelling,
    reader: &mut Reader<'_, '_>,
    out: &mut K,
    query: &Query<'_>,
) -> Result<u8, SessionFault>
    ensures ok { IfOk result (λ mark. Gains reader.old reader.new (mark ∷ []) × Appends (K.written out.old) (K.written out.new) (look_text spelling reader.old.board.subject (query_seen query.now) mark)) }
    ensures err { IfErr result (λ fault. LookStops spelling reader.old reader.new (K.written out.old) (K.written out.new) (K.write_faults out.old) (K.write_faults out.new) (query_seen query.now) fault) }
    ensures counts { K.write_faults out.old ≤ K.write_faults out.new }
{
    let look = match reader.query(rt, query) {
        Ok(look) => look,
        Err(_) => return Err(SessionFault::NoMemory),
    };
    match write_look(out, spelling, &look) {
        Ok(()) => Ok(look.stage),
        Err(Failed) => Err(SessionFault::WriteFault),
    }
}

// The digit of the mark, a space, and the reply's text.
fn write_look<K: Sink>(out: &mut K, spelling: Spelling, look: &Look<'_>) -> Result<(), Failed>
    requires stage { look.now.stage ≤ 5 }
    requires fit { PlacesFit (reply_seen look.now.reply) }
    ensures ok { OnOk result (Appends (K.written out.old) (K.written out.new) (look_line spelling look.now.stage (reply_seen look.now.reply))) }
    ensures failed { OnErr result (Rose (K.write_faults out.old) (K.write_faults out.new)) }
    ensures left { OnErr result (AppendsPrefix (K.written out.old) (K.written out.new) (look_line spelling look.now.stage (reply_seen look.now.reply))) }
    ensures counts { K.write_faults out.old ≤ K.write_faults out.new }
{
    let mut waiting = Waiting::new();
    waiting.push(&[b'0' + look.stage, b' ']);
    send_reply(out, &mut waiting, spelling, &look.reply)?;
    flush(out, &mut waiting)
}
