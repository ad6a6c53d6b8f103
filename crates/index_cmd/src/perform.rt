//! What is asked for is done.

ghost use Rattle.std.specs.Prelude.{◌<◌, ◌≤◌, Some, ℕ, List, length};
ghost use Rattle.ix_base.specs.declared.limits.TheConstants.{MAX_FILE_BYTES};
ghost use Rattle.outside.specs.Counts.{Rose};
ghost use Rattle.outside.specs.Files.{SameFiles};
ghost use Rattle.index_commands.specs.NamesLooks.{SaysNames};
ghost use Rattle.race_command.specs.Races.{SaysRace};
ghost use Rattle.race_command.specs.declared.script.TheConstants.{MAX_SCRIPT_BYTES};
ghost use Rattle.command_base.specs.Replies.{Wrote};
ghost use Rattle.index_cmd.specs.Doings.{CausesBeside, Did, SaysBeside, WasRead};
ghost use Rattle.index_cmd.specs.Runs.{ran};
ghost use Rattle.index_cmd.specs.Tasks.{request_on, request_seen, IsActionInBounds, IsInBounds};

use crate::about::{HELP, VERSION};
use crate::say::say;
use crate::task::{Action, OnFile, Racing, Requested};
use aranges_command::aranges_file;
use cached_command::cached_file;
use command_base::{Status, look_gdb, read_file, unread_status};
use drill_command::run_drill;
use files_command::list_files;
use index_commands::{NamesLook, ask_file, look_names};
use index_pool::Crew;
use ix_base::MAX_FILE_BYTES;
use outside::{Gate, Shelf, Sink, Source};
use race_command::{MAX_SCRIPT_BYTES, race_file};
use serve_command::serve_file;
use std::alloc::Global;
use std::sync::Wait;
use std::thread::Threads;
use store_commands::{add_file, index_file};

/// Does what is asked for. Of the statuses that aren't a result nothing is written here.
pub(crate) fn perform<
    R: Threads + Wait + Sync,
    F: Shelf,
    S: Source + Send,
    K: Sink + Send,
    G: Gate + Sync,
>(crew: &Crew<'_, R, G>, task: &Requested<'_>, shelf: &mut F, input: &mut S, out: &mut K) -> Status
    requires some { 0 < crew.now.workers }
    requires few { crew.now.workers ≤ 64 }
    requires bounds { IsInBounds task.now }
    ensures did { Did (ran F.Shelf S.Source K.Sink (Some (request_seen task.now)) shelf.old shelf.new input.old input.new out.old out.new) result }
    ensures counts { K.write_faults out.old ≤ K.write_faults out.new }
{
    match task {
        Requested::Help => say(out, Status::Answered, HELP.as_bytes()),
        Requested::Version => say(out, Status::Answered, VERSION.as_bytes()),
        Requested::Drill { seed, units } => run_drill(crew, *seed, *units, out),
        Requested::OnFile(on) => read_and_act(crew, on, shelf, input, out),
    }
}

// Reads the file, and does what is asked of its bytes.
fn read_and_act<
    R: Threads + Wait + Sync,
    F: Shelf,
    S: Source + Send,
    K: Sink + Send,
    G: Gate + Sync,
>(crew: &Crew<'_, R, G>, on: &OnFile<'_>, shelf: &mut F, input: &mut S, out: &mut K) -> Status
    requires some { 0 < crew.now.workers }
    requires few { crew.now.workers ≤ 64 }
    requires bounds { IsActionInBounds on.now.action }
    ensures did { Did (ran F.Shelf S.Source K.Sink (Some (request_on on.now.file.now on.now.action)) shelf.old shelf.new input.old input.new out.old out.new) result }
    ensures counts { K.write_faults out.old ≤ K.write_faults out.new }
{
    match read_file(crew.alloc, shelf, on.file, MAX_FILE_BYTES as usize) {
        Ok(bytes) => act(crew, &on.action, &bytes, shelf, input, out),
        Err(stop) => unread_status(stop),
    }
}

// Does what is asked of the bytes of a file. The clause speaks of the shelf as it was before the file was read.
fn act<R: Threads + Wait + Sync, F: Shelf, S: Source + Send, K: Sink + Send, G: Gate + Sync>(
    crew: &Crew<'_, R, G>,
    action: &Action<'_>,
    bytes: &[u8],
    shelf: &mut F,
    input: &mut S,
    out: &mut K,
) -> Status
    requires small { length bytes.now ≤ MAX_FILE_BYTES }
    requires some { 0 < crew.now.workers }
    requires few { crew.now.workers ≤ 64 }
    requires bounds { IsActionInBounds action.now }
    ensures did { (file : List ℕ) (before : F) → WasRead F.Shelf before shelf.old file bytes.now → Did (ran F.Shelf S.Source K.Sink (Some (request_on file action.now)) before shelf.new input.old input.new out.old out.new) result }
    ensures counts { K.write_faults out.old ≤ K.write_faults out.new }
{
    match action {
        Action::Ask(question) => ask_file(crew, bytes, question, out),
        Action::Index { form, out: name } => index_file(crew, bytes, *form, name, shelf, out),
        Action::Add { form, out: name } => add_file(crew, bytes, *form, name, shelf, out),
        Action::LookGdb(question) => look_gdb(crew.alloc, bytes, question, out),
        Action::LookNames {
            look,
            strings,
            name,
        } => read_strings(crew.alloc, bytes, *look, strings, name, shelf, out),
        Action::Serve(how) => serve_file(crew, bytes, how.wait, how.spelling, input, out),
        Action::Race { how, script } => read_script(crew, bytes, *how, script, shelf, out),
        Action::Aranges => aranges_file(crew, bytes, out),
        Action::Files(name) => list_files(crew, bytes, name, out),
        Action::Cached { store, question } => cached_file(crew, bytes, store, question, shelf, out),
    }
}

// Reads the strings of an index, and looks a name up in it.
fn read_strings<F: Shelf, K: Sink>(
    alloc: Global,
    bytes: &[u8],
    look: NamesLook,
    strings: &str,
    name: &[u8],
    shelf: &mut F,
    out: &mut K,
) -> Status
    requires { length bytes.now ≤ MAX_FILE_BYTES }
    ensures wrote { Wrote (SaysBeside (F.files shelf.old) strings.now MAX_FILE_BYTES (λ held. SaysNames bytes.now held look name.now)) result (K.written out.old) (K.written out.new) }
    ensures causes { CausesBeside (F.files shelf.old) strings.now MAX_FILE_BYTES (Rose (F.read_faults shelf.old) (F.read_faults shelf.new)) (Rose (K.write_faults out.old) (K.write_faults out.new)) result }
    ensures kept { SameFiles (F.files shelf.old) (F.files shelf.new) }
    ensures reads { F.read_faults shelf.old ≤ F.read_faults shelf.new }
    ensures counts { K.write_faults out.old ≤ K.write_faults out.new }
{
    match read_file(alloc, shelf, strings, MAX_FILE_BYTES as usize) {
        Ok(held) => look_names(alloc, bytes, &held, look, name, out),
        Err(stop) => unread_status(stop),
    }
}

// Reads a script, and lets the readers answer its lines.
fn read_script<R: Threads + Wait + Sync, F: Shelf, K: Sink, G: Gate + Sync>(
    crew: &Crew<'_, R, G>,
    bytes: &[u8],
    how: Racing,
    script: &str,
    shelf: &mut F,
    out: &mut K,
) -> Status
    requires small { length bytes.now ≤ MAX_FILE_BYTES }
    requires one_worker { 0 < crew.now.workers }
    requires few_workers { crew.now.workers ≤ 64 }
    requires one_reader { 0 < how.readers }
    requires few_readers { how.readers ≤ 16 }
    ensures wrote { Wrote (SaysBeside (F.files shelf.old) script.now MAX_SCRIPT_BYTES (SaysRace how.spelling bytes.now how.readers)) result (K.written out.old) (K.written out.new) }
    ensures causes { CausesBeside (F.files shelf.old) script.now MAX_SCRIPT_BYTES (Rose (F.read_faults shelf.old) (F.read_faults shelf.new)) (Rose (K.write_faults out.old) (K.write_faults out.new)) result }
    ensures kept { SameFiles (F.files shelf.old) (F.files shelf.new) }
    ensures reads { F.read_faults shelf.old ≤ F.read_faults shelf.new }
    ensures counts { K.write_faults out.old ≤ K.write_faults out.new }
{
    match read_file(crew.alloc, shelf, script, MAX_SCRIPT_BYTES as usize) {
        Ok(held) => race_file(crew, bytes, &held, how.readers, how.spelling, out),
        Err(stop) => unread_status(stop),
    }
}
