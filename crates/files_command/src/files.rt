//! The source files of a file by a name.

ghost use Rattle.std.specs.Prelude.{◌≡◌, ◌<◌, ◌≤◌, List, length, option_map};
ghost use Rattle.ix_base.specs.declared.limits.TheConstants.{MAX_FILE_BYTES};
ghost use Rattle.index_model.specs.Faults.{IsAccepted};
ghost use Rattle.outside.specs.Counts.{Rose};
ghost use Rattle.file_image.specs.Images.{image_of};
ghost use Rattle.index_board.specs.Boards.{IsImage};
ghost use Rattle.line_files.specs.Found.{hits_seen};
ghost use Rattle.command_base.specs.Replies.{Wrote};
ghost use Rattle.command_base.specs.Tables.{CausesOfTable};
ghost use Rattle.files_command.specs.Listings.{SaysFiles};
ghost use Rattle.files_command.specs.Listed.{SaysFault, SaysHits};

use crate::text::{hits_text, refusal_line};
use command_base::{RefusedTable, Status, ended, refuse};
use file_image::Image;
use index_board::Reader;
use index_model::CacheKind;
use index_pool::Crew;
use ix_base::{Fault, Stop};
use line_files::{FileHit, list};
use outside::{Gate, Sink, write_all};
use std::alloc::Global;
use std::mem::forget;
use std::sync::Wait;
use std::thread::Threads;

// The stage from which on a file has no fault.
const MAIN_AVAILABLE: u8 = 1;

/// Writes the files with this name that the line tables of the file's bytes name, or the first fault of these tables, or of the file.
pub fn list_files<R: Threads + Wait + Sync, K: Sink, G: Gate + Sync>(
    crew: &Crew<'_, R, G>,
    file: &[u8],
    name: &str,
    out: &mut K,
) -> Status
    requires small { length file.now ≤ MAX_FILE_BYTES }
    requires some { 0 < crew.now.workers }
    requires few { crew.now.workers ≤ 64 }
    ensures wrote { Wrote (SaysFiles file.now name.now) result (K.written out.old) (K.written out.new) }
    ensures causes { CausesOfTable (Rose (K.write_faults out.old) (K.write_faults out.new)) result }
    ensures counts { K.write_faults out.old ≤ K.write_faults out.new }
{
    match crew.build_until(file, CacheKind::Gdb8, MAIN_AVAILABLE) {
        Ok((board, mut pass)) => {
            let mut reader = board.reader(&mut pass);
            let status = match reader.fetch(crew.rt) {
                Ok(()) => answer(crew, board.image(), &reader, name, out),
                Err(_) => Status::NoMemory,
            };
            drop(reader);
            // Nothing comes behind the command, so what was built isn't freed piece by piece.
            forget(board);
            status
        }
        Err(_) => Status::NoMemory,
    }
}

// Writes what the tables of a file with this image name, where a reader keeps what was built of it, or the fault of the file.
fn answer<'f, R: Threads + Wait + Sync, K: Sink, G: Gate + Sync>(
    crew: &Crew<'_, R, G>,
    image: Option<&Image<'f>>,
    reader: &Reader<'_, 'f>,
    name: &str,
    out: &mut K,
) -> Status
    requires image { IsImage (image_of reader.now.board.subject.file) (option_map (λ i. i.now) image) }
    ensures wrote { Wrote (SaysFiles reader.now.board.subject.file name.now) result (K.written out.old) (K.written out.new) }
    ensures causes { CausesOfTable (Rose (K.write_faults out.old) (K.write_faults out.new)) result }
    ensures counts { K.write_faults out.old ≤ K.write_faults out.new }
{
    let parts = reader.parts();
    if let Some(fault) = parts.fault {
        return refuse(out, fault);
    }
    // A file without an image has a fault, and a build that ended without one has published a map, unless it was refused memory.
    match (image, &parts.summary) {
        (Some(image), Some(_)) => search(crew, image, name, out),
        _ => Status::NoMemory,
    }
}

// Writes what the tables of an image name.
fn search<R: Threads + Wait + Sync, K: Sink, G: Gate + Sync>(
    crew: &Crew<'_, R, G>,
    image: &Image<'_>,
    name: &str,
    out: &mut K,
) -> Status
    requires accepted { IsAccepted image.now.file }
    ensures wrote { Wrote (SaysFiles image.now.file name.now) result (K.written out.old) (K.written out.new) }
    ensures causes { CausesOfTable (Rose (K.write_faults out.old) (K.write_faults out.new)) result }
    ensures counts { K.write_faults out.old ≤ K.write_faults out.new }
{
    match list(crew.rt, crew.alloc, image, name.as_bytes(), crew.workers) {
        Ok(hits) => write_hits(crew.alloc, &hits, out),
        Err(Stop::Cause(fault)) => refuse_tables(crew.alloc, fault, out),
        Err(Stop::Memory) => Status::NoMemory,
    }
}

// Writes how many files were found, and each of them.
fn write_hits<K: Sink>(alloc: Global, hits: &[FileHit<'_>], out: &mut K) -> Status
    ensures wrote { Wrote (SaysHits (hits_seen hits.now)) result (K.written out.old) (K.written out.new) }
    ensures causes { CausesOfTable (Rose (K.write_faults out.old) (K.write_faults out.new)) result }
    ensures counts { K.write_faults out.old ≤ K.write_faults out.new }
{
    match hits_text(alloc, hits) {
        Ok(text) => ended(write_all(out, &text), Status::Answered),
        Err(_) => Status::NoMemory,
    }
}

// Writes the fault of a line table.
fn refuse_tables<K: Sink>(alloc: Global, fault: Fault, out: &mut K) -> Status
    ensures wrote { Wrote (SaysFault fault) result (K.written out.old) (K.written out.new) }
    ensures causes { CausesOfTable (Rose (K.write_faults out.old) (K.write_faults out.new)) result }
    ensures counts { K.write_faults out.old ≤ K.write_faults out.new }
{
    match refusal_line(alloc, fault) {
        Ok(line) => ended(
            write_all(out, line.as_bytes()),
            Status::TableRefused(RefusedTable::Lines),
        ),
        Err(_) => Status::NoMemory,
    }
}
