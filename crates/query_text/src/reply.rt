//! The lines of a reply.

ghost use Rattle.std.specs.Prelude.{◌≡◌, ◌≤◌, ◌+◌, ◌<◌, ◌++◌, [], ◌∷◌, length, All, Some, OnOk, OnErr};
ghost use Rattle.outside.specs.Counts.{Rose};
ghost use Rattle.outside.specs.Written.{Appends, AppendsPrefix};
ghost use Rattle.index_model.specs.Answers.{Entries, MainIs};
ghost use Rattle.index_model.specs.Seen.{main_seen, answer_seen, reply_seen};
ghost use Rattle.index_model.specs.Texts.{text_of_answer, text_of_entry, text_of_reply};
ghost use Rattle.query_text.specs.Places.{PlacesFit, PlacesFitAnswer};
ghost use Rattle.query_text.specs.Sending.{room, Sends};
ghost use Rattle.query_text.specs.Spelled.{answer_in, entry_in, main_in, reply_in, texts_at};

use crate::send::{flush, make_room, send_name};
use crate::texts::{
    SHORT, push_count, push_fault, push_head, push_main, push_no_main, push_size, push_unit,
};
use crate::waiting::Waiting;
use index_model::{Answer, Entry, Hits, MainName, Reply};
use name_quotes::Spelling;
use outside::{Failed, Sink};

/// Writes the lines of a reply, with its names as they are written. Where that fails, a prefix of them was written. It takes no memory, and short lines are
/// written together, up to 4,096 bytes at a time.
pub fn write_reply<K: Sink>(
    out: &mut K,
    spelling: Spelling,
    reply: &Reply<'_>,
) -> Result<(), Failed>
    requires { PlacesFit (reply_seen reply.now) }
    ensures ok { OnOk result (Appends (K.written out.old) (K.written out.new) (text_of_reply (reply_in spelling (reply_seen reply.now)))) }
    ensures failed { OnErr result (Rose (K.write_faults out.old) (K.write_faults out.new)) }
    ensures left { OnErr result (AppendsPrefix (K.written out.old) (K.written out.new) (text_of_reply (reply_in spelling (reply_seen reply.now)))) }
    ensures counts { K.write_faults out.old ≤ K.write_faults out.new }
{
    let mut waiting = Waiting::new();
    send_reply(out, &mut waiting, spelling, reply)?;
    flush(out, &mut waiting)
}

/// Sends the lines of a reply behind what waits.
pub(crate) fn send_reply<K: Sink>(
    out: &mut K,
    waiting: &mut Waiting,
    spelling: Spelling,
    reply: &Reply<'_>,
) -> Result<(), Failed>
    requires fit { PlacesFit (reply_seen reply.now) }
    requires room { length waiting.old + 96 ≤ room }
    ensures ok { OnOk result (Sends (K.written out.old) waiting.old (K.written out.new) waiting.new (text_of_reply (reply_in spelling (reply_seen reply.now)))) }
    ensures failed { OnErr result (Rose (K.write_faults out.old) (K.write_faults out.new)) }
    ensures left { OnErr result (AppendsPrefix (K.written out.old) (K.written out.new) (waiting.old ++ text_of_reply (reply_in spelling (reply_seen reply.now)))) }
    ensures counts { K.write_faults out.old ≤ K.write_faults out.new }
{
    match reply {
        Reply::Answer(answer) => send_answer(out, waiting, spelling, answer),
        Reply::Pending => {
            waiting.push(b"pending\n");
            Ok(())
        }
        Reply::Refused(fault) => {
            push_fault(waiting, *fault);
            Ok(())
        }
        Reply::Stopped => {
            waiting.push(b"stopped\n");
            Ok(())
        }
    }
}

fn send_answer<K: Sink>(
    out: &mut K,
    waiting: &mut Waiting,
    spelling: Spelling,
    answer: &Answer<'_>,
) -> Result<(), Failed>
    requires fit { PlacesFitAnswer (answer_seen answer.now) }
    requires room { length waiting.old + 96 ≤ room }
    ensures ok { OnOk result (Sends (K.written out.old) waiting.old (K.written out.new) waiting.new (text_of_answer (answer_in spelling (answer_seen answer.now)))) }
    ensures failed { OnErr result (Rose (K.write_faults out.old) (K.write_faults out.new)) }
    ensures left { OnErr result (AppendsPrefix (K.written out.old) (K.written out.new) (waiting.old ++ text_of_answer (answer_in spelling (answer_seen answer.now)))) }
    ensures counts { K.write_faults out.old ≤ K.write_faults out.new }
{
    match answer {
        Answer::Entries(hits) => send_entries(out, waiting, spelling, hits),
        Answer::Unit(unit) => {
            push_unit(waiting, *unit);
            Ok(())
        }
        Answer::Main(Some(main)) => send_main(out, waiting, spelling, main),
        Answer::Main(None) => {
            push_no_main(waiting);
            Ok(())
        }
        Answer::Cache(size) => {
            push_size(waiting, *size);
            Ok(())
        }
    }
}

fn send_main<K: Sink>(
    out: &mut K,
    waiting: &mut Waiting,
    spelling: Spelling,
    main: &MainName<'_>,
) -> Result<(), Failed>
    requires room { length waiting.old + 96 ≤ room }
    ensures ok { OnOk result (Sends (K.written out.old) waiting.old (K.written out.new) waiting.new (text_of_answer (MainIs (Some (main_in spelling (main_seen main.now)))))) }
    ensures failed { OnErr result (Rose (K.write_faults out.old) (K.write_faults out.new)) }
    ensures left { OnErr result (AppendsPrefix (K.written out.old) (K.written out.new) (waiting.old ++ text_of_answer (MainIs (Some (main_in spelling (main_seen main.now)))))) }
    ensures counts { K.write_faults out.old ≤ K.write_faults out.new }
{
    push_main(waiting, main.language);
    send_name(out, waiting, spelling, main.name)
}

// How many entries were found, and each of them.
fn send_entries<K: Sink>(
    out: &mut K,
    waiting: &mut Waiting,
    spelling: Spelling,
    hits: &Hits<'_>,
) -> Result<(), Failed>
    requires fit { All (λ k. k < length hits.now.entries.now) hits.now.places.now }
    requires room { length waiting.old + 96 ≤ room }
    ensures ok { OnOk result (Sends (K.written out.old) waiting.old (K.written out.new) waiting.new (text_of_answer (answer_in spelling (Entries hits.now.entries.now hits.now.places.now)))) }
    ensures failed { OnErr result (Rose (K.write_faults out.old) (K.write_faults out.new)) }
    ensures left { OnErr result (AppendsPrefix (K.written out.old) (K.written out.new) (waiting.old ++ text_of_answer (answer_in spelling (Entries hits.now.entries.now hits.now.places.now)))) }
    ensures counts { K.write_faults out.old ≤ K.write_faults out.new }
{
    push_count(waiting, hits.places.len() as u64);
    send_each(out, waiting, spelling, hits.entries, hits.places)
}

// Each of the entries at these places.
fn send_each<K: Sink>(
    out: &mut K,
    waiting: &mut Waiting,
    spelling: Spelling,
    entries: &[Entry<'_>],
    places: &[u32],
) -> Result<(), Failed>
    requires { All (λ k. k < length entries.now) places.now }
    ensures ok { OnOk result (Sends (K.written out.old) waiting.old (K.written out.new) waiting.new (texts_at spelling entries.now places.now)) }
    ensures failed { OnErr result (Rose (K.write_faults out.old) (K.write_faults out.new)) }
    ensures left { OnErr result (AppendsPrefix (K.written out.old) (K.written out.new) (waiting.old ++ texts_at spelling entries.now places.now)) }
    ensures counts { K.write_faults out.old ≤ K.write_faults out.new }
{
    for place in places {
        send_entry(out, waiting, spelling, &entries[*place as usize])?;
    }
    Ok(())
}

fn send_entry<K: Sink>(
    out: &mut K,
    waiting: &mut Waiting,
    spelling: Spelling,
    entry: &Entry<'_>,
) -> Result<(), Failed>
    ensures ok { OnOk result (Sends (K.written out.old) waiting.old (K.written out.new) waiting.new (text_of_entry (entry_in spelling entry.now))) }
    ensures failed { OnErr result (Rose (K.write_faults out.old) (K.write_faults out.new)) }
    ensures left { OnErr result (AppendsPrefix (K.written out.old) (K.written out.new) (waiting.old ++ text_of_entry (entry_in spelling entry.now))) }
    ensures counts { K.write_faults out.old ≤ K.write_faults out.new }
{
    make_room(out, waiting, SHORT)?;
    push_head(waiting, entry);
    send_name(out, waiting, spelling, entry.name.bytes())
}
