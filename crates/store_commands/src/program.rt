//! A program with its index, as bytes.

ghost use Rattle.std.specs.Prelude.{◌≡◌, ◌≤◌, ◌==◌, false, bytes_eq, length, None, Some, IfOk, IfErr, OnOk};
ghost use Rattle.std.specs.List.{AllByRecursion as AllOf};
ghost use Rattle.ix_base.specs.declared.limits.TheConstants.{MAX_FILE_BYTES};
ghost use Rattle.index_model.specs.Cache.{DoesNotFit};
ghost use Rattle.reach_model.specs.Added.{added, debug_str, names_start, new_sections};
ghost use Rattle.reach_model.specs.AddedSections.{HavePlaces};
ghost use Rattle.stage_core.specs.Outputs.{cache_seen};
ghost use Rattle.store_commands.specs.Adds.{ForProgram, HasRoom, OfAdded};
ghost use Rattle.store_commands.specs.Programs.{lacks_strings, names_section, nothing, one_section, reason, staged, AddStops, FillStops, FinishStops, FitsKind, HasRoomForOne, IsIndexOf, SectionStops, StringsStop};
ghost use Rattle.store_commands.specs.Stops.{stop_status};
ghost use Rattle.index_forms.specs.Forms.{kind_of};
ghost use Rattle.index_model.specs.declared.job.CacheKind.TheVariants.{Names};

use command_base::Status;
use elf_add::{Adder, NoRoom};
use index_forms::IndexForm;
use index_model::CacheKind;
use ix_base::OrMemory;
use stage_core::Cache;
use std::alloc::Global;

/// Why a program isn't given its index.
#[derive(Clone, Copy)]
pub(crate) enum NotAdded {
    /// It has a section for such an index.
    Present,
    /// It has no room for one more section.
    TooMany,
    /// The format can't hold the index.
    TooLarge,
    Memory,
}

impl NotAdded {
    /// How a command ends whose program isn't given its index.
    pub(crate) fn status(self) -> Status
        ensures { result ≡ stop_status self }
    {
        match self {
            NotAdded::Present => Status::AlreadyIndexed,
            NotAdded::TooMany => Status::TooManySections,
            NotAdded::TooLarge => Status::IndexTooLarge,
            NotAdded::Memory => Status::NoMemory,
        }
    }
}

/// The program of these bytes, which have no fault, with its index in this form.
pub(crate) fn with_index<'f>(
    alloc: Global,
    file: &'f [u8],
    form: IndexForm,
    cache: &'f Cache,
) -> Result<Vec<u8>, NotAdded>
    requires index { IsIndexOf file.now form (cache_seen cache.now) }
    requires small { length file.now ≤ MAX_FILE_BYTES }
    ensures ok { IfOk result (λ bytes. ForProgram file.now form (OfAdded (kind_of form) (λ b. b ≡ bytes.items))) }
    ensures err { IfErr result (AddStops file.now form) }
{
    match Adder::new(alloc, file) {
        Ok(mut adder) => match add_index(&mut adder, form.kind(), cache) {
            Ok(()) => finish(adder, cache),
            Err(stop) => Err(stop),
        },
        Err(_) => Err(NotAdded::Memory),
    }
}

// The program with what was added for this index.
fn finish(adder: Adder<'_>, cache: &Cache) -> Result<Vec<u8>, NotAdded>
    requires { (cache_seen cache.now ≡ DoesNotFit → ⊥) → HavePlaces (names_start adder.file adder.sections adder.addition) (new_sections adder.file adder.sections adder.addition) }
    ensures ok { IfOk result (λ bytes. bytes.items ≡ added adder.entry.file adder.entry.sections adder.entry.addition) }
    ensures fits { OnOk result (cache_seen cache.now ≡ DoesNotFit → ⊥) }
    ensures err { IfErr result (FinishStops (cache_seen cache.now)) }
{
    if let Cache::TooLarge = cache {
        return Err(NotAdded::TooLarge);
    }
    match adder.finish() {
        Ok(bytes) => Ok(bytes),
        Err(_) => Err(NotAdded::Memory),
    }
}

// Adds the section of an index, and its strings. An index that its format can't hold is taken for one of no bytes, since what the
// program's sections forbid comes first.
fn add_index<'f>(adder: &mut Adder<'f>, kind: CacheKind, cache: &'f Cache) -> Result<(), NotAdded>
    requires fresh { adder.old.addition ≡ nothing }
    requires fits { FitsKind kind (cache_seen cache.now) }
    ensures ok { OnOk result (adder.new ≡ record adder.old { addition = staged kind (cache_seen cache.now) }) }
    ensures room { OnOk result (HasRoom kind adder.old.file adder.old.sections) }
    ensures err { IfErr result (FillStops kind adder.old.file adder.old.sections) }
{
    match cache {
        Cache::Gdb(bytes) => add_section(adder, b".gdb_index", bytes.as_slice()),
        Cache::Names(names, strings) => add_names(adder, names.as_slice(), strings.as_slice()),
        Cache::TooLarge => match kind {
            CacheKind::Gdb8 | CacheKind::Gdb9 => add_section(adder, b".gdb_index", &[]),
            CacheKind::Names => add_names(adder, &[], &[]),
        },
    }
}

// Adds the section of a `.debug_names`, and its strings.
fn add_names<'f>(adder: &mut Adder<'f>, names: &'f [u8], strings: &'f [u8]) -> Result<(), NotAdded>
    requires fresh { adder.old.addition ≡ nothing }
    ensures ok { OnOk result (adder.new ≡ record adder.old { addition = names_section names.now strings.now }) }
    ensures room { OnOk result (HasRoom Names adder.old.file adder.old.sections) }
    ensures err { IfErr result (FillStops Names adder.old.file adder.old.sections) }
{
    match add_section(adder, b".debug_names", names) {
        Ok(()) => add_strings(adder, strings),
        Err(stop) => Err(stop),
    }
}

// Adds the first section.
fn add_section<'f>(adder: &mut Adder<'f>, name: &'f [u8], bytes: &'f [u8]) -> Result<(), NotAdded>
    requires fresh { adder.old.addition ≡ nothing }
    requires ended { AllOf (λ b. (b == 0) ≡ false) name.now }
    requires other { bytes_eq name.now debug_str ≡ false }
    ensures ok { OnOk result (adder.new ≡ record adder.old { addition = one_section name.now bytes.now }) }
    ensures room { OnOk result (HasRoomForOne adder.old.file adder.old.sections name.now) }
    ensures err { IfErr result (SectionStops adder.old.file adder.old.sections name.now) }
{
    match adder.section(name, bytes) {
        Ok(()) => Ok(()),
        Err(stop) => Err(stopped(stop)),
    }
}

// Adds strings behind one section.
fn add_strings<'f>(adder: &mut Adder<'f>, strings: &'f [u8]) -> Result<(), NotAdded>
    requires one { length adder.old.addition.sections ≡ 1 }
    requires first { adder.old.addition.strings ≡ None }
    ensures ok { OnOk result (adder.new ≡ record adder.old { addition = record adder.old.addition { strings = Some strings.now } }) }
    ensures room { OnOk result (lacks_strings adder.old.file adder.old.sections ≡ false) }
    ensures err { IfErr result (StringsStop adder.old.file adder.old.sections) }
{
    match adder.extend(strings) {
        Ok(()) => Ok(()),
        Err(stop) => Err(stopped(stop)),
    }
}

// The same reason.
fn stopped(stop: OrMemory<NoRoom>) -> NotAdded
    ensures { result ≡ reason stop }
{
    match stop {
        OrMemory::Cause(NoRoom::Present) => NotAdded::Present,
        OrMemory::Cause(NoRoom::TooMany) => NotAdded::TooMany,
        OrMemory::Memory => NotAdded::Memory,
    }
}
