//! The answer of a `.gdb_index` to a query.

ghost use Rattle.std.specs.Prelude.{◌≡◌, ◌≤◌, Some};
ghost use Rattle.outside.specs.Counts.{Rose};
ghost use Rattle.index_model.specs.Answers.{Answered};
ghost use Rattle.index_model.specs.Seen.{answer_seen};
ghost use Rattle.query_text.specs.Places.{PlacesFitAnswer};
ghost use Rattle.query_text.specs.Questions.{question_seen};
ghost use Rattle.query_text.specs.Spelled.{answer_in};
ghost use Rattle.command_base.specs.Replies.{CausesOfResult, SaysReply, Wrote};
ghost use Rattle.command_base.specs.GdbLooks.{offer_gdb, SaysGdb, SaysLook};

use crate::reply::{ended, write};
use crate::status::Status;
use gdbindex_read::GdbIndex;
use index_model::{Answer, Query, Reply};
use ix_base::Stop;
use name_quotes::Spelling;
use outside::Sink;
use query_text::{Question, write_elements, write_index_fault};
use std::alloc::Global;

/// Writes the answer of the index in these bytes to the query, or its first fault. The query is one that it answers. The status is
/// `NoMemory` where paths in its symbol table are longer together than `GdbIndex::open_limited` goes.
pub fn look_gdb<K: Sink>(
    alloc: Global,
    bytes: &[u8],
    question: &Question<'_>,
    out: &mut K,
) -> Status
    requires { offer_gdb (question_seen question.now).query ≡ Some (question_seen question.now).query }
    ensures wrote { Wrote (SaysGdb bytes.now (question_seen question.now)) result (K.written out.old) (K.written out.new) }
    ensures causes { CausesOfResult (Rose (K.write_faults out.old) (K.write_faults out.new)) result }
    ensures counts { K.write_faults out.old ≤ K.write_faults out.new }
{
    match GdbIndex::open_limited(alloc, bytes) {
        Ok(index) => answer_by_gdb(&index, question, out),
        Err(Stop::Memory) => Status::NoMemory,
        Err(Stop::Cause(fault)) => ended(write_index_fault(out, fault), Status::IndexRefused),
    }
}

/// Writes the answer of an index that was opened to a query that it answers.
pub fn answer_by_gdb<K: Sink>(index: &GdbIndex<'_>, question: &Question<'_>, out: &mut K) -> Status
    requires { offer_gdb (question_seen question.now).query ≡ Some (question_seen question.now).query }
    ensures wrote { Wrote (SaysLook index.now (question_seen question.now)) result (K.written out.old) (K.written out.new) }
    ensures causes { CausesOfResult (Rose (K.write_faults out.old) (K.write_faults out.new)) result }
    ensures counts { K.write_faults out.old ≤ K.write_faults out.new }
{
    let spelling = question.spelling;
    match &question.query {
        Query::Name(name) => ended(
            write_elements(out, spelling, name, &index.find(name)),
            Status::Answered,
        ),
        Query::Addr(address) => answer_short(out, spelling, Answer::Unit(index.unit_at(*address))),
        Query::Main => answer_short(out, spelling, Answer::Main(index.main_name())),
        Query::Simple(_) | Query::Cache => unreachable!(),
    }
}

// The answer of one line.
fn answer_short<K: Sink>(out: &mut K, spelling: Spelling, answer: Answer<'_>) -> Status
    requires { PlacesFitAnswer (answer_seen answer) }
    ensures wrote { Wrote (SaysReply (Answered (answer_in spelling (answer_seen answer.entry)))) result (K.written out.old) (K.written out.new) }
    ensures causes { CausesOfResult (Rose (K.write_faults out.old) (K.write_faults out.new)) result }
    ensures counts { K.write_faults out.old ≤ K.write_faults out.new }
{
    write(out, spelling, &Reply::Answer(answer))
}
