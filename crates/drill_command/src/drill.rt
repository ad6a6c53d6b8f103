//! `drill`: the sizes of a generated program and of its indexes.

ghost use Rattle.std.specs.Prelude.{◌≡◌, ◌<◌, ◌≤◌, length, IsOkAnd, option_map};
ghost use Rattle.ix_base.specs.declared.limits.TheConstants.{MAX_FILE_BYTES};
ghost use Rattle.outside.specs.Counts.{Rose};
ghost use Rattle.index_model.specs.declared.job.CacheKind.TheVariants.{Gdb8};
ghost use Rattle.index_model.specs.Faults.{built_of};
ghost use Rattle.file_image.specs.Images.{image_of};
ghost use Rattle.index_board.specs.Boards.{IsImage};
ghost use Rattle.stage_core.specs.Outputs.{parts_seen, summary_seen};
ghost use Rattle.index_pool.specs.Written.{ArePublished};
ghost use Rattle.drill_command.specs.Drills.{main_word, totals_of};
ghost use Rattle.command_base.specs.Replies.{CausesOfResult, Wrote};
ghost use Rattle.drill_command.specs.DrillResults.{CausesOfDrill, SaysDrill};
ghost use Rattle.drill_command.specs.Summaries.{totals_seen, AreBuiltOf, CausesOfSummary, SaysSummary, SaysTotals};

use crate::totals::Totals;
use command_base::{Status, ended, refuse};
use elf_make::make;
use file_image::Image;
use index_board::Reader;
use index_model::{CacheKind, Main};
use index_pool::{Crew, name_cache};
use outside::{Gate, Sink, write_all};
use query_engine::Table;
use stage_core::{Cache, Parts, Summary};
use std::alloc::Global;
use std::sync::Wait;
use std::thread::Threads;

/// Makes the program of a seed with so many units, builds its index, and writes the line of their sizes, or the first fault.
pub fn run_drill<R: Threads + Wait + Sync, K: Sink, G: Gate + Sync>(
    crew: &Crew<'_, R, G>,
    seed: u32,
    units: u32,
    out: &mut K,
) -> Status
    requires one_unit { 0 < units }
    requires few_units { units ≤ 100000 }
    requires some { 0 < crew.now.workers }
    requires few { crew.now.workers ≤ 64 }
    ensures wrote { Wrote (SaysDrill seed units) result (K.written out.old) (K.written out.new) }
    ensures causes { CausesOfDrill seed units (Rose (K.write_faults out.old) (K.write_faults out.new)) result }
    ensures counts { K.write_faults out.old ≤ K.write_faults out.new }
{
    match make(crew.alloc, seed, units) {
        Ok(file) => measure(crew, &file, out),
        Err(_) => Status::NoMemory,
    }
}

// Builds the `.gdb_index` of the file's bytes, and writes the line of all sizes or the first fault.
fn measure<R: Threads + Wait + Sync, K: Sink, G: Gate + Sync>(
    crew: &Crew<'_, R, G>,
    file: &[u8],
    out: &mut K,
) -> Status
    requires small { length file.now ≤ MAX_FILE_BYTES }
    requires some { 0 < crew.now.workers }
    requires few { crew.now.workers ≤ 64 }
    ensures wrote { Wrote (SaysSummary file.now) result (K.written out.old) (K.written out.new) }
    ensures causes { CausesOfSummary file.now (Rose (K.write_faults out.old) (K.write_faults out.new)) result }
    ensures counts { K.write_faults out.old ≤ K.write_faults out.new }
{
    match crew.build_file(file, CacheKind::Gdb8) {
        Ok((board, mut pass)) => {
            let mut reader = board.reader(&mut pass);
            let status = match reader.fetch(crew.rt) {
                Ok(()) => summarize(crew.rt, crew.alloc, board.image(), &reader, out),
                Err(_) => Status::NoMemory,
            };
            board.join(&mut pass, reader.end());
            board.close(pass);
            status
        }
        Err(_) => Status::NoMemory,
    }
}

// Writes the line of the sizes of what a reader keeps of a file with this image, or the fault.
fn summarize<'f, R: Threads + Sync, K: Sink>(
    rt: &R,
    alloc: Global,
    image: Option<&Image<'f>>,
    reader: &Reader<'_, 'f>,
    out: &mut K,
) -> Status
    requires kind { reader.now.board.subject.cache ≡ Gdb8 }
    requires image { IsImage (image_of reader.now.board.subject.file) (option_map (λ i. i.now) image) }
    ensures wrote { Wrote (SaysSummary reader.now.board.subject.file) result (K.written out.old) (K.written out.new) }
    ensures causes { CausesOfSummary reader.now.board.subject.file (Rose (K.write_faults out.old) (K.write_faults out.new)) result }
    ensures counts { K.write_faults out.old ≤ K.write_faults out.new }
{
    if let Some(fault) = reader.parts().fault {
        return refuse(out, fault);
    }
    match image {
        Some(image) => sum_up(rt, alloc, image, reader.parts(), out),
        // A file that has no image has a fault, which the build found unless it was refused memory.
        None => Status::NoMemory,
    }
}

// Writes the line of the sizes of a file that was built, by its image and the parts that are published.
fn sum_up<'f, R: Threads + Sync, K: Sink>(
    rt: &R,
    alloc: Global,
    image: &Image<'f>,
    parts: &Parts<'f>,
    out: &mut K,
) -> Status
    requires { AreBuiltOf image.now.file (parts_seen parts.now) }
    ensures wrote { Wrote (SaysSummary image.now.file) result (K.written out.old) (K.written out.new) }
    ensures causes { CausesOfSummary image.now.file (Rose (K.write_faults out.old) (K.write_faults out.new)) result }
    ensures counts { K.write_faults out.old ≤ K.write_faults out.new }
{
    // A build that ended without a fault and lacks a part was refused memory.
    let Some(summary) = &parts.summary else {
        return Status::NoMemory;
    };
    let Some(table) = &parts.table else {
        return Status::NoMemory;
    };
    let Some(cache) = &parts.cache else {
        return Status::NoMemory;
    };
    let Cache::Gdb(gdb) = &**cache else {
        return Status::IndexTooLarge;
    };
    let Some(name_cache) = name_cache(rt, alloc, image, summary, table) else {
        return Status::NoMemory;
    };
    let Cache::Names(names, strings) = &name_cache else {
        return Status::IndexTooLarge;
    };
    let totals = totals(
        image,
        summary,
        table,
        gdb.as_slice(),
        names.as_slice(),
        strings.as_slice(),
    );
    write_line(alloc, &totals, out)
}

// The totals of the image's file, by the bytes of its `.gdb_index`, of its `.debug_names` and of the strings that this adds.
fn totals<'m>(
    image: &Image<'_>,
    summary: &'m Summary<'_>,
    table: &Table<'_>,
    gdb: &[u8],
    names: &[u8],
    strings: &[u8],
) -> Totals<'m>
    requires { ArePublished image.now (summary_seen summary.now) table.now }
    ensures { IsOkAnd (built_of image.now.file) (λ b. totals_seen result ≡ totals_of b gdb.now names.now strings.now) }
{
    Totals {
        units: image.units().len(),
        entries: table.entries().len(),
        names: table.distinct(),
        gdb_index: gdb.len(),
        name_index: names.len(),
        strings: strings.len(),
        main: main_word(&summary.main),
    }
}

// The name of the main program; none is empty.
fn main_word<'m>(main: &'m Option<Main<'_>>) -> &'m [u8]
    ensures { result.now ≡ main_word main.now }
{
    match main {
        Some(main) => main.name.bytes(),
        None => &[],
    }
}

// Writes the line of the totals.
fn write_line<K: Sink>(alloc: Global, totals: &Totals<'_>, out: &mut K) -> Status
    ensures wrote { Wrote (SaysTotals (totals_seen totals.now)) result (K.written out.old) (K.written out.new) }
    ensures causes { CausesOfResult (Rose (K.write_faults out.old) (K.write_faults out.new)) result }
    ensures counts { K.write_faults out.old ≤ K.write_faults out.new }
{
    match totals.line(alloc) {
        Ok(line) => ended(write_all(out, &line), Status::Answered),
        Err(_) => Status::NoMemory,
    }
}
