//! The top call.

ghost use Rattle.std.specs.Prelude.{◌≤◌};
ghost use Rattle.outside.specs.Counts.{Rose};
ghost use Rattle.command_words.specs.SeenWords.{words_of};
ghost use Rattle.index_cmd.specs.Doings.{Did};
ghost use Rattle.index_cmd.specs.Replies.{Ends};
ghost use Rattle.index_cmd.specs.Requests.{request_of};
ghost use Rattle.index_cmd.specs.Runs.{ran, EndsWith};

use crate::line::query_line;
use crate::perform::perform;
use crate::say::say;
use crate::task::{query_words, task_for, workers};
use command_base::Status;
use command_words::parse_command;
use index_pool::Crew;
use outside::{Gate, Shelf, Sink, Source};
use std::alloc::Global;
use std::sync::Wait;
use std::thread::Threads;

/// Does what the words after the program's name ask for: reads the file from the shelf, builds its index, and writes the answer to
/// the sink, or stores the index or the file with it; answers the lines of the input or of a script while it builds; reads an index
/// and writes its answer; compares the file's address table with its units; lists the source files
/// that its line tables name; answers from an index that is kept, or else builds and keeps it; or makes a program and writes the sizes of its indexes.
/// It gives the status. `CameTo` says all that is promised of a run that came to it, and nothing there speaks of the number of workers.
pub fn run<R: Threads + Wait + Sync, F: Shelf, S: Source + Send, K: Sink + Send, G: Gate + Sync>(
    rt: &R,
    alloc: Global,
    words: &[String],
    shelf: &mut F,
    input: &mut S,
    out: &mut K,
    gate: &G,
) -> u8
    ensures { EndsWith (ran F.Shelf S.Source K.Sink (request_of (words_of words.now)) shelf.old shelf.new input.old input.new out.old out.new) result }
{
    let status = command(rt, alloc, words, shelf, input, out, gate);
    end(out, status).code()
}

// Does it, but for the line of a status that isn't a result. Want of memory for the line of a query comes before a line that is
// none.
fn command<R: Threads + Wait + Sync, F: Shelf, S: Source + Send, K: Sink + Send, G: Gate + Sync>(
    rt: &R,
    alloc: Global,
    words: &[String],
    shelf: &mut F,
    input: &mut S,
    out: &mut K,
    gate: &G,
) -> Status
    ensures did { Did (ran F.Shelf S.Source K.Sink (request_of (words_of words.now)) shelf.old shelf.new input.old input.new out.old out.new) result }
    ensures counts { K.write_faults out.old ≤ K.write_faults out.new }
{
    let Some(command) = parse_command(words) else {
        return Status::Usage;
    };
    let line = match query_line(alloc, query_words(&command)) {
        Ok(line) => line,
        Err(_) => return Status::NoMemory,
    };
    let workers = workers(&command);
    let crew = Crew {
        rt,
        alloc,
        workers,
        gate,
    };
    match task_for(&command, &line) {
        Some(task) => perform(&crew, &task, shelf, input, out),
        None => Status::Usage,
    }
}

// Writes the line of a status that isn't a result.
fn end<K: Sink>(out: &mut K, status: Status) -> Status
    ensures ends { Ends status (K.written out.old) (K.written out.new) (Rose (K.write_faults out.old) (K.write_faults out.new)) result }
    ensures counts { K.write_faults out.old ≤ K.write_faults out.new }
{
    match status {
        Status::Answered
        | Status::Refused
        | Status::IndexRefused
        | Status::WriteFault
        | Status::InputFault
        | Status::InputTooLong
        | Status::Stopped => status,
        Status::TableRefused(_) => status,
        Status::Usage => say(out, status, b"usage\n"),
        Status::ReadFault => say(out, status, b"read fault\n"),
        Status::StoreFault => say(out, status, b"store fault\n"),
        Status::NoMemory => say(out, status, b"no memory\n"),
        Status::IndexTooLarge => say(out, status, b"too large\n"),
        Status::FileTooBig => say(out, status, b"file too big\n"),
        Status::AlreadyIndexed => say(out, status, b"already indexed\n"),
        Status::TooManySections => say(out, status, b"too many sections\n"),
    }
}
