//! A session: the lines of an input, and a reply to each.

ghost use Rattle.std.specs.Prelude.{◌≡◌, ◌≤◌, ◌<◌, ◌^◌, ℕ, ◌+◌, Bool, true, false, List, [], ◌∷◌, ◌++◌, length, All, IfOk, OnOk, IfErr};
ghost use Rattle.index_model.specs.Transcripts.{lines_of};
ghost use Rattle.query_text.specs.Sessions.{Answers, IsShort, SessionStops, Stops, TakesUntil};
ghost use Rattle.query_text.specs.WholeLines.{HasNoNewline, Spells, whole_lines_of};

use crate::answer::{Asker, answer};
use crate::fault::SessionFault;
use crate::line_buf::LineBuf;
use index_board::Reader;
use name_quotes::Spelling;
use outside::{Failed, Gate, Sink, Source};
use std::sync::Wait;

/// How many bytes a session takes of its input at most.
const MAX_INPUT: usize = 4_294_967_296;

/// The most bytes of a line.
const LONGEST: usize = 65536;

/// Reads lines and writes a reply to each, with its names as they are written, to the end of the input. May wait.
pub fn session<R: Wait, S: Source, K: Sink, G: Gate>(
    rt: &R,
    number: u32,
    spelling: Spelling,
    reader: &mut Reader<'_, '_>,
    input: &mut S,
    out: &mut K,
    line: &mut LineBuf,
    gate: &G,
) -> Result<(), SessionFault>
    ensures ok { OnOk result ((taken : List ℕ) × TakesUntil (S.left input.old) (S.left input.new) true taken × (length taken < 2 ^ 32) × All IsShort (lines_of taken) × Answers spelling reader.old reader.new (K.written out.old) (K.written out.new) (lines_of taken)) }
    ensures err { IfErr result (λ fault. SessionStops spelling (S.left input.old) (S.left input.new) (S.read_faults input.old) (S.read_faults input.new) reader.old reader.new (K.written out.old) (K.written out.new) (K.write_faults out.old) (K.write_faults out.new) fault) }
    ensures reads { S.read_faults input.old ≤ S.read_faults input.new }
    ensures writes { K.write_faults out.old ≤ K.write_faults out.new }
{
    line.clear();
    let mut asker = Asker::new(number, gate);
    let mut left = MAX_INPUT;
    while left > 0 {
        match line.fill(input, left) {
            Ok(0) => return answer_last(rt, &mut asker, spelling, reader, out, line.part()),
            Ok(count) => left -= count,
            Err(Failed) => return Err(SessionFault::ReadFault),
        }
        answer_whole(rt, &mut asker, spelling, reader, out, line)?;
        if line.part().len() > LONGEST {
            return Err(SessionFault::LineTooLong);
        }
    }
    Err(SessionFault::InputTooLong)
}

// Answers the lines whose newline is among the fresh bytes, and keeps what stands behind the last of them.
fn answer_whole<R: Wait, K: Sink, G: Gate>(
    rt: &R,
    asker: &mut Asker<'_, G>,
    spelling: Spelling,
    reader: &mut Reader<'_, '_>,
    out: &mut K,
    line: &mut LineBuf,
) -> Result<(), SessionFault>
    requires { HasNoNewline line.old.part }
    ensures ok { OnOk result ((text : List ℕ) × (lines : List (List ℕ)) × (line.old.part ++ line.old.fresh ≡ text ++ line.new.part) × Spells text lines × Answers spelling reader.old reader.new (K.written out.old) (K.written out.new) lines) }
    ensures one_line { OnOk result (HasNoNewline line.new.part) }
    ensures searched { OnOk result (line.new.fresh ≡ []) }
    ensures err { IfErr result (λ fault. Stops spelling reader.old reader.new (K.written out.old) (K.written out.new) (K.write_faults out.old) (K.write_faults out.new) (whole_lines_of (line.old.part ++ line.old.fresh)) fault) }
    ensures counts { K.write_faults out.old ≤ K.write_faults out.new }
{
    while let Some(end) = line.newline() {
        asker.next_line();
        answer(rt, asker, spelling, reader, out, line.line_up_to(end))?;
        line.pass_line(end);
    }
    line.keep();
    Ok(())
}

// Answers the last line, which lacks its newline, if there is one.
fn answer_last<R: Wait, K: Sink, G: Gate>(
    rt: &R,
    asker: &mut Asker<'_, G>,
    spelling: Spelling,
    reader: &mut Reader<'_, '_>,
    out: &mut K,
    part: &[u8],
) -> Result<(), SessionFault>
    requires { HasNoNewline part.now }
    ensures ok { OnOk result (Answers spelling reader.old reader.new (K.written out.old) (K.written out.new) (lines_of part.now)) }
    ensures err { IfErr result (λ fault. Stops spelling reader.old reader.new (K.written out.old) (K.written out.new) (K.write_faults out.old) (K.write_faults out.new) (lines_of part.now) fault) }
    ensures counts { K.write_faults out.old ≤ K.write_faults out.new }
{
    if part.is_empty() {
        return Ok(());
    }
    asker.next_line();
    answer(rt, asker, spelling, reader, out, part)
}
