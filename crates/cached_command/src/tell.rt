//! What `cached` writes.

ghost use Rattle.std.specs.Prelude.{◌≡◌, ◌≤◌, ◌++◌, Some, IfOk, OnOk, OnErr};
ghost use Rattle.std.specs.String.{string_bytes};
ghost use Rattle.outside.specs.Counts.{Rose};
ghost use Rattle.outside.specs.Written.{Appends, AppendsPrefix};
ghost use Rattle.index_model.specs.Seen.{answer_seen};
ghost use Rattle.query_text.specs.Questions.{question_seen};
ghost use Rattle.query_text.specs.Spelled.{answer_in};
ghost use Rattle.index_model.specs.Texts.{hex, text_of_answer};
ghost use Rattle.query_text.specs.Places.{PlacesFitAnswer};
ghost use Rattle.reach_model.specs.KeptTexts.{text_of_stale};
ghost use Rattle.command_base.specs.GdbLooks.{offer_gdb};
ghost use Rattle.cached_command.specs.Tellings.{Tells};

use gdbindex_read::GdbIndex;
use index_model::{Answer, Query, Reply};
use ix_base::Fault;
use name_quotes::Spelling;
use outside::{Failed, Sink, write_all};
use query_text::{Question, write_elements, write_reply};
use std::alloc::{AllocError, Global};

/// The line of what was kept, and has a fault. Nothing, where nothing was read.
pub(crate) fn stale_text(alloc: Global, why: Option<Fault>) -> Result<String, AllocError>
    ensures { IfOk result (λ text. string_bytes text ≡ text_of_stale why) }
{
    match why {
        Some(fault) => stale_line(alloc, fault),
        None => Ok(String::new(alloc)),
    }
}

// The line of what was kept: the code of its fault, and the place.
fn stale_line(alloc: Global, fault: Fault) -> Result<String, AllocError>
    ensures { IfOk result (λ text. string_bytes text ≡ text_of_stale (Some fault)) }
{
    let code = fault.code;
    let place = hex_word(alloc, fault.at)?;
    let line = format!(in alloc; "stale {code} {place}\n")?;
    Ok(line)
}

// A number in lower-case hexadecimal.
fn hex_word(alloc: Global, number: u64) -> Result<String, AllocError>
    ensures { IfOk result (λ word. string_bytes word ≡ hex number) }
{
    format!(in alloc; "{number:x}")
}

/// Writes two fronts, and the answer of an index to a query that it answers. Where that fails, a prefix of this was written. It
/// takes no memory.
pub(crate) fn tell_behind<K: Sink>(
    first: &[u8],
    second: &[u8],
    index: &GdbIndex<'_>,
    question: &Question<'_>,
    out: &mut K,
) -> Result<(), Failed>
    requires { offer_gdb (question_seen question.now).query ≡ Some (question_seen question.now).query }
    ensures ok { OnOk result (Tells index.now (question_seen question.now) (λ answer. Appends (K.written out.old) (K.written out.new) (first.now ++ (second.now ++ answer)))) }
    ensures failed { OnErr result (Rose (K.write_faults out.old) (K.write_faults out.new)) }
    ensures left { OnErr result (Tells index.now (question_seen question.now) (λ answer. AppendsPrefix (K.written out.old) (K.written out.new) (first.now ++ (second.now ++ answer)))) }
    ensures counts { K.write_faults out.old ≤ K.write_faults out.new }
{
    write_all(out, first)?;
    tell(second, index, question, out)
}

/// Writes a front, and the answer of an index to a query that it answers. Where that fails, a prefix of this was written. It takes
/// no memory.
pub(crate) fn tell<K: Sink>(
    front: &[u8],
    index: &GdbIndex<'_>,
    question: &Question<'_>,
    out: &mut K,
) -> Result<(), Failed>
    requires { offer_gdb (question_seen question.now).query ≡ Some (question_seen question.now).query }
    ensures ok { OnOk result (Tells index.now (question_seen question.now) (λ answer. Appends (K.written out.old) (K.written out.new) (front.now ++ answer))) }
    ensures failed { OnErr result (Rose (K.write_faults out.old) (K.write_faults out.new)) }
    ensures left { OnErr result (Tells index.now (question_seen question.now) (λ answer. AppendsPrefix (K.written out.old) (K.written out.new) (front.now ++ answer))) }
    ensures counts { K.write_faults out.old ≤ K.write_faults out.new }
{
    write_all(out, front)?;
    write_answer(index, question, out)
}

// Writes the answer of an index to a query that it answers.
fn write_answer<K: Sink>(
    index: &GdbIndex<'_>,
    question: &Question<'_>,
    out: &mut K,
) -> Result<(), Failed>
    requires { offer_gdb (question_seen question.now).query ≡ Some (question_seen question.now).query }
    ensures ok { OnOk result (Tells index.now (question_seen question.now) (Appends (K.written out.old) (K.written out.new))) }
    ensures failed { OnErr result (Rose (K.write_faults out.old) (K.write_faults out.new)) }
    ensures left { OnErr result (Tells index.now (question_seen question.now) (AppendsPrefix (K.written out.old) (K.written out.new))) }
    ensures counts { K.write_faults out.old ≤ K.write_faults out.new }
{
    let spelling = question.spelling;
    match &question.query {
        Query::Name(name) => write_elements(out, spelling, name, &index.find(name)),
        Query::Addr(address) => write_short(out, spelling, Answer::Unit(index.unit_at(*address))),
        Query::Main => write_short(out, spelling, Answer::Main(index.main_name())),
        Query::Simple(_) | Query::Cache => unreachable!(),
    }
}

// Writes an answer of one line.
fn write_short<K: Sink>(out: &mut K, spelling: Spelling, answer: Answer<'_>) -> Result<(), Failed>
    requires { PlacesFitAnswer (answer_seen answer) }
    ensures ok { OnOk result (Appends (K.written out.old) (K.written out.new) (text_of_answer (answer_in spelling (answer_seen answer.entry)))) }
    ensures failed { OnErr result (Rose (K.write_faults out.old) (K.write_faults out.new)) }
    ensures left { OnErr result (AppendsPrefix (K.written out.old) (K.written out.new) (text_of_answer (answer_in spelling (answer_seen answer.entry)))) }
    ensures counts { K.write_faults out.old ≤ K.write_faults out.new }
{
    write_reply(out, spelling, &Reply::Answer(answer))
}
