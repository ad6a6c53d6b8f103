//! `add`: the program with its index is stored.

ghost use Rattle.std.specs.Prelude.{◌≡◌, ◌<◌, ◌≤◌, length, option_map};
ghost use Rattle.ix_base.specs.declared.limits.TheConstants.{MAX_FILE_BYTES};
ghost use Rattle.outside.specs.Counts.{Rose};
ghost use Rattle.command_base.specs.Replies.{Wrote};
ghost use Rattle.stage_core.specs.Outputs.{cache_seen};
ghost use Rattle.file_image.specs.Images.{image_of};
ghost use Rattle.index_board.specs.Boards.{IsImage};
ghost use Rattle.index_forms.specs.Forms.{kind_of};
ghost use Rattle.index_forms.specs.declared.form.IndexForm.TheVariants.{ByDwarf};
ghost use Rattle.store_commands.specs.Adds.{CausesOfAdd, LeavesAdd, SaysAdd};
ghost use Rattle.store_commands.specs.Programs.{IsIndexOf};
ghost use Rattle.store_commands.specs.Stops.{CausesOfStore};

use crate::by_gdb::{index_by_gdb, stage_for};
use crate::program::with_index;
use command_base::{Status, refuse};
use file_image::Image;
use index_board::Reader;
use index_forms::IndexForm;
use index_pool::Crew;
use outside::{Failed, Gate, Shelf, Sink};
use stage_core::Cache;
use std::alloc::Global;
use std::sync::Wait;
use std::thread::Threads;

/// Stores the program of the file's bytes with its index in this form under a name, or writes their first fault.
pub fn add_file<R: Threads + Wait + Sync, F: Shelf, K: Sink, G: Gate + Sync>(
    crew: &Crew<'_, R, G>,
    file: &[u8],
    form: IndexForm,
    name: &str,
    shelf: &mut F,
    out: &mut K,
) -> Status
    requires small { length file.now ≤ MAX_FILE_BYTES }
    requires some { 0 < crew.now.workers }
    requires few { crew.now.workers ≤ 64 }
    ensures wrote { Wrote (SaysAdd file.now) result (K.written out.old) (K.written out.new) }
    ensures causes { CausesOfAdd file.now form (Rose (F.store_faults shelf.old) (F.store_faults shelf.new)) (Rose (K.write_faults out.old) (K.write_faults out.new)) result }
    ensures leaves { LeavesAdd file.now form (F.files shelf.old) (F.files shelf.new) name.now result }
    ensures counts { K.write_faults out.old ≤ K.write_faults out.new }
{
    match crew.build_until(file, form.kind(), stage_for(form)) {
        Ok((board, mut pass)) => {
            let mut reader = board.reader(&mut pass);
            let status = match reader.fetch(crew.rt) {
                Ok(()) => publish(crew, board.image(), &reader, file, form, name, shelf, out),
                Err(_) => Status::NoMemory,
            };
            board.join(&mut pass, reader.end());
            board.close(pass);
            status
        }
        Err(_) => Status::NoMemory,
    }
}

// Stores the program with the index of what a reader keeps of it, or writes the fault.
fn publish<'f, R: Threads + Wait + Sync, F: Shelf, K: Sink, G: Gate + Sync>(
    crew: &Crew<'_, R, G>,
    image: Option<&Image<'f>>,
    reader: &Reader<'_, 'f>,
    file: &[u8],
    form: IndexForm,
    name: &str,
    shelf: &mut F,
    out: &mut K,
) -> Status
    requires file { reader.now.board.subject.file ≡ file.now }
    requires kind { reader.now.board.subject.cache ≡ kind_of form }
    requires image { IsImage (image_of file.now) (option_map (λ i. i.now) image) }
    requires small { length file.now ≤ MAX_FILE_BYTES }
    ensures wrote { Wrote (SaysAdd file.now) result (K.written out.old) (K.written out.new) }
    ensures causes { CausesOfAdd file.now form (Rose (F.store_faults shelf.old) (F.store_faults shelf.new)) (Rose (K.write_faults out.old) (K.write_faults out.new)) result }
    ensures leaves { LeavesAdd file.now form (F.files shelf.old) (F.files shelf.new) name.now result }
    ensures counts { K.write_faults out.old ≤ K.write_faults out.new }
{
    if let Some(fault) = reader.parts().fault {
        return refuse(out, fault);
    }
    match form {
        IndexForm::ByDwarf(_) => store_kept(crew.alloc, reader, file, form, name, shelf),
        IndexForm::ByGdb(version) => {
            match index_by_gdb(crew.rt, crew.alloc, crew.workers, image, reader, version) {
                Some(cache) => store(crew.alloc, file, form, &cache, name, shelf),
                None => Status::NoMemory,
            }
        }
    }
}

// Stores the program with the index that a reader keeps.
fn store_kept<F: Shelf>(
    alloc: Global,
    reader: &Reader<'_, '_>,
    file: &[u8],
    form: IndexForm,
    name: &str,
    shelf: &mut F,
) -> Status
    requires file { reader.now.board.subject.file ≡ file.now }
    requires form { form ≡ ByDwarf reader.now.board.subject.cache }
    requires small { length file.now ≤ MAX_FILE_BYTES }
    ensures causes { CausesOfStore file.now form (Rose (F.store_faults shelf.old) (F.store_faults shelf.new)) result }
    ensures leaves { LeavesAdd file.now form (F.files shelf.old) (F.files shelf.new) name.now result }
{
    match reader.cache() {
        Some(cache) => store(alloc, file, form, cache, name, shelf),
        // A build that ended without a fault was refused memory.
        None => Status::NoMemory,
    }
}

// Stores the program with this index under a name.
fn store<F: Shelf>(
    alloc: Global,
    file: &[u8],
    form: IndexForm,
    cache: &Cache,
    name: &str,
    shelf: &mut F,
) -> Status
    requires index { IsIndexOf file.now form (cache_seen cache.now) }
    requires small { length file.now ≤ MAX_FILE_BYTES }
    ensures causes { CausesOfStore file.now form (Rose (F.store_faults shelf.old) (F.store_faults shelf.new)) result }
    ensures leaves { LeavesAdd file.now form (F.files shelf.old) (F.files shelf.new) name.now result }
{
    match with_index(alloc, file, form, cache) {
        Ok(bytes) => match shelf.store(name, &bytes) {
            Ok(()) => Status::Answered,
            Err(Failed) => Status::StoreFault,
        },
        Err(stop) => stop.status(),
    }
}
