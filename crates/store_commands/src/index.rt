//! `index`: the index of a file is stored.

ghost use Rattle.std.specs.Prelude.{◌≡◌, ◌<◌, ◌≤◌, length, option_map, IfOk};
ghost use Rattle.std.specs.String.{string_bytes};
ghost use Rattle.ix_base.specs.declared.limits.TheConstants.{MAX_FILE_BYTES};
ghost use Rattle.outside.specs.Counts.{Rose};
ghost use Rattle.index_model.specs.Cache.{NameBytes};
ghost use Rattle.stage_core.specs.Outputs.{cache_seen};
ghost use Rattle.command_base.specs.Replies.{Wrote};
ghost use Rattle.store_commands.specs.Indexes.{CausesOfIndex, CausesOfStoring, LeavesIndex, SaysIndex};
ghost use Rattle.file_image.specs.Images.{image_of};
ghost use Rattle.index_board.specs.Boards.{IsImage};
ghost use Rattle.index_forms.specs.Forms.{kind_of};
ghost use Rattle.index_forms.specs.declared.form.IndexForm.TheVariants.{ByDwarf, ByGdb};
ghost use Rattle.store_commands.specs.Stores.{CausesOfStore, StoreLeaves, strings_name};

use crate::by_gdb::{index_by_gdb, stage_for};
use command_base::{Status, refuse};
use file_image::Image;
use index_board::Reader;
use index_forms::{GdbVersion, IndexForm};
use index_pool::Crew;
use outside::{Failed, Gate, Shelf, Sink};
use stage_core::Cache;
use std::alloc::{AllocError, Global};
use std::mem::forget;
use std::sync::Wait;
use std::thread::Threads;

/// Stores the index in this form of the file's bytes under a name, or writes their first fault.
pub fn index_file<R: Threads + Wait + Sync, F: Shelf, K: Sink, G: Gate + Sync>(
    crew: &Crew<'_, R, G>,
    file: &[u8],
    form: IndexForm,
    name: &str,
    shelf: &mut F,
    out: &mut K,
) -> Status
    requires small { length file.now ≤ MAX_FILE_BYTES }
    requires some { 0 < crew.now.workers }
    requires few { crew.now.workers ≤ 64 }
    ensures wrote { Wrote (SaysIndex file.now) result (K.written out.old) (K.written out.new) }
    ensures causes { CausesOfIndex file.now form (Rose (F.store_faults shelf.old) (F.store_faults shelf.new)) (Rose (K.write_faults out.old) (K.write_faults out.new)) result }
    ensures leaves { LeavesIndex file.now form (F.files shelf.old) (F.files shelf.new) name.now result }
    ensures counts { K.write_faults out.old ≤ K.write_faults out.new }
{
    match crew.build_until(file, form.kind(), stage_for(form)) {
        Ok((board, mut pass)) => {
            let mut reader = board.reader(&mut pass);
            let status = match reader.fetch(crew.rt) {
                Ok(()) => publish(crew, board.image(), &reader, form, name, shelf, out),
                Err(_) => Status::NoMemory,
            };
            drop(reader);
            // Nothing comes behind the command, so what was built isn't freed piece by piece.
            forget(board);
            status
        }
        Err(_) => Status::NoMemory,
    }
}

// Stores the index of what a reader keeps of a file with this image, or writes the fault.
fn publish<'f, R: Threads + Wait + Sync, F: Shelf, K: Sink, G: Gate + Sync>(
    crew: &Crew<'_, R, G>,
    image: Option<&Image<'f>>,
    reader: &Reader<'_, 'f>,
    form: IndexForm,
    name: &str,
    shelf: &mut F,
    out: &mut K,
) -> Status
    requires kind { reader.now.board.subject.cache ≡ kind_of form }
    requires image { IsImage (image_of reader.now.board.subject.file) (option_map (λ i. i.now) image) }
    ensures wrote { Wrote (SaysIndex reader.now.board.subject.file) result (K.written out.old) (K.written out.new) }
    ensures causes { CausesOfIndex reader.now.board.subject.file form (Rose (F.store_faults shelf.old) (F.store_faults shelf.new)) (Rose (K.write_faults out.old) (K.write_faults out.new)) result }
    ensures leaves { LeavesIndex reader.now.board.subject.file form (F.files shelf.old) (F.files shelf.new) name.now result }
    ensures counts { K.write_faults out.old ≤ K.write_faults out.new }
{
    if let Some(fault) = reader.parts().fault {
        return refuse(out, fault);
    }
    match form {
        IndexForm::ByDwarf(_) => store_kept(crew.alloc, reader, name, shelf),
        IndexForm::ByGdb(version) => store_by_gdb(crew, image, reader, version, name, shelf),
    }
}

// Stores the index that a reader keeps.
fn store_kept<F: Shelf>(alloc: Global, reader: &Reader<'_, '_>, name: &str, shelf: &mut F) -> Status
    ensures causes { CausesOfStoring reader.now.board.subject.file (ByDwarf reader.now.board.subject.cache) (Rose (F.store_faults shelf.old) (F.store_faults shelf.new)) result }
    ensures leaves { LeavesIndex reader.now.board.subject.file (ByDwarf reader.now.board.subject.cache) (F.files shelf.old) (F.files shelf.new) name.now result }
{
    match reader.cache() {
        Some(cache) => store(alloc, shelf, name, cache),
        // A build that ended without a fault was refused memory.
        None => Status::NoMemory,
    }
}

// Stores the index of the entries that gdb lists.
fn store_by_gdb<'f, R: Threads + Wait + Sync, F: Shelf, G: Gate + Sync>(
    crew: &Crew<'_, R, G>,
    image: Option<&Image<'f>>,
    reader: &Reader<'_, 'f>,
    version: GdbVersion,
    name: &str,
    shelf: &mut F,
) -> Status
    requires { IsImage (image_of reader.now.board.subject.file) (option_map (λ i. i.now) image) }
    ensures causes { CausesOfStoring reader.now.board.subject.file (ByGdb version) (Rose (F.store_faults shelf.old) (F.store_faults shelf.new)) result }
    ensures leaves { LeavesIndex reader.now.board.subject.file (ByGdb version) (F.files shelf.old) (F.files shelf.new) name.now result }
{
    match index_by_gdb(crew.rt, crew.alloc, crew.workers, image, reader, version) {
        Some(cache) => store(crew.alloc, shelf, name, &cache),
        None => Status::NoMemory,
    }
}

// Stores an index under a name.
fn store<F: Shelf>(alloc: Global, shelf: &mut F, name: &str, cache: &Cache) -> Status
    ensures causes { CausesOfStore (Rose (F.store_faults shelf.old) (F.store_faults shelf.new)) (cache_seen cache.now) result }
    ensures leaves { StoreLeaves (F.files shelf.old) (F.files shelf.new) name.now (cache_seen cache.now) result }
{
    match cache {
        Cache::Gdb(bytes) => match shelf.store(name, bytes.as_slice()) {
            Ok(()) => Status::Answered,
            Err(Failed) => Status::StoreFault,
        },
        Cache::Names(names, strings) => {
            store_both(alloc, shelf, name, names.as_slice(), strings.as_slice())
        }
        Cache::TooLarge => Status::IndexTooLarge,
    }
}

// Stores the bytes of a `.debug_names` under a name, and then its strings beside it.
fn store_both<F: Shelf>(
    alloc: Global,
    shelf: &mut F,
    name: &str,
    names: &[u8],
    strings: &[u8],
) -> Status
    ensures causes { CausesOfStore (Rose (F.store_faults shelf.old) (F.store_faults shelf.new)) (NameBytes names.now strings.now) result }
    ensures leaves { StoreLeaves (F.files shelf.old) (F.files shelf.new) name.now (NameBytes names.now strings.now) result }
{
    let beside = match strings_name(alloc, name) {
        Ok(beside) => beside,
        Err(_) => return Status::NoMemory,
    };
    if shelf.store(name, names).is_err() {
        return Status::StoreFault;
    }
    match shelf.store(beside.as_str(), strings) {
        Ok(()) => Status::Answered,
        Err(Failed) => Status::StoreFault,
    }
}

// The name under which the strings are stored.
fn strings_name(alloc: Global, name: &str) -> Result<String, AllocError>
    ensures { IfOk result (λ beside. string_bytes beside ≡ strings_name name.now) }
{
    let mut beside = String::from_str(alloc, name)?;
    beside.push_str(".debug_str")?;
    Ok(beside)
}
