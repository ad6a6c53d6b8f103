//! Entries under each name and each kind.

ghost use Rattle.std.specs.Prelude.{◌≡◌, ◌++◌, flat_map, IfOk, OnOk};
ghost use Rattle.cxx_spelling.specs.Spelling.{spelling_bytes};
ghost use Rattle.gdb_entries.specs.Entries.{text_of_index};
ghost use Rattle.gdb_names.specs.Both.{both_texts};
ghost use Rattle.gdb_index.specs.Items.{entries_under, entry_under, texts_in, texts_of};

use crate::item_names::ListedNames;
use cxx_spelling::SpelledName;
use gdb_entries::Kinds;
use gdb_names::BothNames;
use index_model::{Entry, Kind, Text};
use ix_base::{Cursor, NoMemory};
use std::alloc::Global;

/// What the entries of an item have in common.
#[derive(Clone, Copy)]
pub(crate) struct ItemEntries {
    /// The number of the unit to which gdb gives the item.
    pub unit: u32,
    /// The joint offset of the item.
    pub offset: u64,
    pub tag: u16,
    /// Whether the names are static.
    pub local: bool,
    /// There is an entry of each name under each of these.
    pub kinds: Kinds,
}

impl ItemEntries {
    /// Adds the entries of an item with these names.
    pub fn add_names<'f>(
        &self,
        alloc: Global,
        names: ListedNames<'f>,
        entries: &mut Vec<Entry<'f>>,
    ) -> Result<(), NoMemory>
        ensures { OnOk result (entries.new.items ≡ entries.old.items ++ flat_map (entries_under self.now) (texts_of names.entry)) }
    {
        self.add_name(alloc, names.full, entries)?;
        self.add_name(alloc, names.second, entries)
    }

    // Adds those of a name, if there is one.
    fn add_name<'f>(
        &self,
        alloc: Global,
        name: Option<BothNames<'f>>,
        entries: &mut Vec<Entry<'f>>,
    ) -> Result<(), NoMemory>
        ensures { OnOk result (entries.new.items ≡ entries.old.items ++ flat_map (entries_under self.now) (texts_in name.entry)) }
    {
        match name {
            Some(name) => self.add_both(alloc, name, entries),
            None => Ok(()),
        }
    }

    // Adds those of each text of a name.
    fn add_both<'f>(
        &self,
        alloc: Global,
        name: BothNames<'f>,
        entries: &mut Vec<Entry<'f>>,
    ) -> Result<(), NoMemory>
        ensures { OnOk result (entries.new.items ≡ entries.old.items ++ flat_map (entries_under self.now) (both_texts name.entry)) }
    {
        self.add_kinds(alloc, name.older, entries)?;
        match name.newer {
            Some(name) => self.add_kinds(alloc, name, entries),
            None => Ok(()),
        }
    }

    // Adds one of this name under each kind.
    fn add_kinds<'f>(
        &self,
        alloc: Global,
        name: SpelledName<'f>,
        entries: &mut Vec<Entry<'f>>,
    ) -> Result<(), NoMemory>
        ensures { OnOk result (entries.new.items ≡ entries.old.items ++ entries_under self.now (spelling_bytes name.entry)) }
    {
        match self.kinds {
            Kinds::One(kind) => entries.push(self.entry(kind, text_of(name)))?,
            Kinds::TypeAndOther => {
                let copy = copy_of(alloc, &name)?;
                entries.push(self.entry(Kind::TypeName, copy))?;
                entries.push(self.entry(Kind::Other, text_of(name)))?;
            }
        }
        Ok(())
    }

    // The entry of this name under this kind. It has no simple name.
    fn entry<'f>(&self, kind: Kind, name: Text<'f>) -> Entry<'f>
        ensures { result ≡ entry_under self.now name.entry kind }
    {
        Entry {
            unit: self.unit,
            offset: self.offset,
            tag: self.tag,
            kind,
            local: self.local,
            linkage: false,
            name,
            tail: 0,
        }
    }
}

// A name as an index has it. No name that is formed of a file's texts is known to have a zero byte, but no clause says that none has.
fn text_of<'f>(name: SpelledName<'f>) -> Text<'f>
    ensures { result ≡ text_of_index (spelling_bytes name.entry) }
{
    match name {
        SpelledName::Lent(bytes) => Text::lent(text_of_index(bytes)),
        SpelledName::Owned(text) => Text::owned(shortened(text)),
    }
}

// The same, with bytes of its own where those of the name are.
fn copy_of<'f>(alloc: Global, name: &SpelledName<'f>) -> Result<Text<'f>, NoMemory>
    ensures { IfOk result (λ text. text ≡ text_of_index (spelling_bytes name.now)) }
{
    match name {
        SpelledName::Lent(bytes) => Ok(Text::lent(text_of_index(bytes))),
        SpelledName::Owned(text) => Ok(Text::owned(text_of_index(text.as_slice()).to_vec(alloc)?)),
    }
}

// The bytes up to the first zero, in the same room.
fn shortened(mut text: Vec<u8>) -> Vec<u8>
    ensures { result.items ≡ text_of_index text.items }
{
    let length = text_of_index(text.as_slice()).len();
    text.truncate(length);
    text
}

// The bytes up to the first zero.
fn text_of_index(bytes: &[u8]) -> &[u8]
    ensures { result.now ≡ text_of_index bytes.now }
{
    match Cursor::new(bytes, 0).zstr() {
        Some(text) => text,
        None => bytes,
    }
}
