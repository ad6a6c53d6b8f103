//! The address table of a file beside its units.

ghost use Rattle.std.specs.Prelude.{◌≡◌, ◌<◌, ◌≤◌, length, option_map, Ok};
ghost use Rattle.ix_base.specs.declared.limits.TheConstants.{MAX_FILE_BYTES};
ghost use Rattle.outside.specs.Counts.{Rose};
ghost use Rattle.file_image.specs.Images.{image_of};
ghost use Rattle.index_board.specs.Boards.{IsImage};
ghost use Rattle.command_base.specs.Replies.{Wrote};
ghost use Rattle.command_base.specs.Tables.{CausesOfTable};
ghost use Rattle.aranges_command.specs.Comparisons.{IsMapOf, SaysAranges};
ghost use Rattle.aranges_command.specs.Compared.{SaysComparison, SaysFault};

use crate::line::{comparison_line, refusal_line};
use address_map::AddressMap;
use aranges_read::{compare, read};
use command_base::{RefusedTable, Status, ended, refuse};
use file_image::Image;
use index_board::Reader;
use index_model::CacheKind;
use index_pool::Crew;
use ix_base::{Fault, Stop};
use outside::{Gate, Sink, write_all};
use reach_model::Difference;
use std::alloc::Global;
use std::mem::forget;
use std::sync::Wait;
use std::thread::Threads;

// The stage at which the map is published.
const MAIN_AVAILABLE: u8 = 1;

/// Writes whether the address table of the file's bytes agrees with the ranges of their units, or the first address with two
/// answers; or the first fault of the table, or of the file.
pub fn aranges_file<R: Threads + Wait + Sync, K: Sink, G: Gate + Sync>(
    crew: &Crew<'_, R, G>,
    file: &[u8],
    out: &mut K,
) -> Status
    requires small { length file.now ≤ MAX_FILE_BYTES }
    requires some { 0 < crew.now.workers }
    requires few { crew.now.workers ≤ 64 }
    ensures wrote { Wrote (SaysAranges file.now) result (K.written out.old) (K.written out.new) }
    ensures causes { CausesOfTable (Rose (K.write_faults out.old) (K.write_faults out.new)) result }
    ensures counts { K.write_faults out.old ≤ K.write_faults out.new }
{
    match crew.build_until(file, CacheKind::Gdb8, MAIN_AVAILABLE) {
        Ok((board, mut pass)) => {
            let mut reader = board.reader(&mut pass);
            let status = match reader.fetch(crew.rt) {
                Ok(()) => answer(crew.alloc, board.image(), &reader, out),
                Err(_) => Status::NoMemory,
            };
            drop(reader);
            // Nothing comes behind the command, so what was built isn't freed piece by piece.
            forget(board);
            status
        }
        Err(_) => Status::NoMemory,
    }
}

// Writes how the table of a file with this image compares with what a reader keeps of it, or the fault of the file.
fn answer<'f, K: Sink>(
    alloc: Global,
    image: Option<&Image<'f>>,
    reader: &Reader<'_, 'f>,
    out: &mut K,
) -> Status
    requires image { IsImage (image_of reader.now.board.subject.file) (option_map (λ i. i.now) image) }
    ensures wrote { Wrote (SaysAranges reader.now.board.subject.file) result (K.written out.old) (K.written out.new) }
    ensures causes { CausesOfTable (Rose (K.write_faults out.old) (K.write_faults out.new)) result }
    ensures counts { K.write_faults out.old ≤ K.write_faults out.new }
{
    let parts = reader.parts();
    if let Some(fault) = parts.fault {
        return refuse(out, fault);
    }
    // A file without an image has a fault, and a build that ended without one has published the map, unless it was refused memory.
    match (image, &parts.summary) {
        (Some(image), Some(summary)) => compare_table(alloc, image, &summary.map, out),
        _ => Status::NoMemory,
    }
}

// Writes how the table of an image compares with the map of its units.
fn compare_table<K: Sink>(alloc: Global, image: &Image<'_>, own: &AddressMap, out: &mut K) -> Status
    requires image { image_of image.now.file ≡ Ok image.now }
    requires map { IsMapOf image.now.file own.now }
    ensures wrote { Wrote (SaysAranges image.now.file) result (K.written out.old) (K.written out.new) }
    ensures causes { CausesOfTable (Rose (K.write_faults out.old) (K.write_faults out.new)) result }
    ensures counts { K.write_faults out.old ≤ K.write_faults out.new }
{
    match read(alloc, image) {
        Ok(table) => write_comparison(alloc, compare(&table, own), out),
        Err(Stop::Cause(fault)) => refuse_table(alloc, fault, out),
        Err(Stop::Memory) => Status::NoMemory,
    }
}

// Writes the line of a comparison.
fn write_comparison<K: Sink>(alloc: Global, difference: Option<Difference>, out: &mut K) -> Status
    ensures wrote { Wrote (SaysComparison difference) result (K.written out.old) (K.written out.new) }
    ensures causes { CausesOfTable (Rose (K.write_faults out.old) (K.write_faults out.new)) result }
    ensures counts { K.write_faults out.old ≤ K.write_faults out.new }
{
    match comparison_line(alloc, difference) {
        Ok(line) => ended(write_all(out, line.as_bytes()), Status::Answered),
        Err(_) => Status::NoMemory,
    }
}

// Writes the fault of the table.
fn refuse_table<K: Sink>(alloc: Global, fault: Fault, out: &mut K) -> Status
    ensures wrote { Wrote (SaysFault fault) result (K.written out.old) (K.written out.new) }
    ensures causes { CausesOfTable (Rose (K.write_faults out.old) (K.write_faults out.new)) result }
    ensures counts { K.write_faults out.old ≤ K.write_faults out.new }
{
    match refusal_line(alloc, fault) {
        Ok(line) => ended(
            write_all(out, line.as_bytes()),
            Status::TableRefused(RefusedTable::Addresses),
        ),
        Err(_) => Status::NoMemory,
    }
}
