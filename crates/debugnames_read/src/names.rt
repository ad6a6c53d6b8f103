//! The name table: the string, the hash and the entries of each name (DWARF 5, sections 6.1.1.4.3 to 6.1.1.4.6).

ghost use Rattle.std.specs.Prelude.{◌≡◌, IsOk, OnOk, [], ◌<◌, ◌-◌, ◌==◌, List, ℕ, Some, bytes_eq, is_some, option_map};
ghost use Rattle.index_model.specs.Gives.{GivesAlways};
ghost use Rattle.index_model.specs.Layout.{below, nth};
ghost use Rattle.index_model.specs.Meaning.{each, wrong_in};
ghost use Rattle.index_model.specs.NameAbbreviations.{abbreviations};
ghost use Rattle.index_model.specs.NameIndexRead.{entries_of_name, has_hash, is_hashed, name_at};
ghost use Rattle.debugnames_read.specs.Abbreviations.{abbreviations_in};
ghost use Rattle.debugnames_read.specs.Known.{IsKnown};
ghost use Rattle.debugnames_read.specs.Lists.{list_from, AreSound, IsIn};
ghost use Rattle.debugnames_read.specs.Tables.{tables_seen};
ghost use Rattle.string_ends.specs.Texts.{IsLastEnd};

use crate::checked::Checked;
use crate::hash::{is_beyond_ascii, name_hash};
use crate::hashes::hash_at;
use crate::header::fault;
use crate::known::AbbreviationsByCode;
use crate::tables::Tables;
use index_model::index_code::{NAMES_BUCKET, NAMES_ENTRY_POOL, NAMES_HASH, NAMES_STRING_OFFSET};
use ix_base::{Cursor, Fault};
use std::alloc::Global;
use string_ends::{Hashed, is_text, last_end, text_at};

/// The tables of an index, and the strings of its names. The abbreviations have no fault.
#[derive(Drop)]
pub(crate) struct IndexTables<'a> {
    pub tables: Tables<'a>,
    /// The abbreviations of the tables.
    pub known: AbbreviationsByCode<'a>,
    /// The string section from `base` on.
    pub strings: &'a [u8],
    pub base: u64,
    ghost right: { IsOk (abbreviations (tables_seen tables).abbreviations) },
    ghost known_all: { IsKnown [] (abbreviations_in (tables_seen tables).abbreviations) known },
}

impl<'a> IndexTables<'a> {
    ghost use Rattle.debugnames_read.specs.Hashed.{IsHashOfName};
    ghost use Rattle.debugnames_read.specs.Names.{string_at, tables_of, IsRight};

    /// How many names there are.
    pub fn len(&self) -> usize
        ensures { result ≡ (tables_of self.now).counts.names }
    {
        self.tables.counts.names as usize
    }

    /// The first fault of the names, one after the other: of its string, its hash, its bucket or its entries.
    pub fn check(&self, alloc: Global) -> Result<(), Fault>
        ensures { wrong_in result ≡ wrong_in (each (name_at (tables_of self.now) (abbreviations_in (tables_of self.now).abbreviations) self.now.strings.now self.now.base) (below (tables_of self.now).counts.names)) }
    {
        let count = self.len();
        let end = last_end(self.strings);
        let hashes = self.hashes(alloc);
        let mut checked = Checked::none(alloc, self.tables.pool.rest().len());
        for number in 0..count {
            let known = hash_at(&hashes, number);
            self.check_name(number, end, known, &mut checked)?;
        }
        Ok(())
    }

    // The first fault of a name. Its string isn't read where its hash is known or names have none.
    fn check_name(
        &self,
        number: usize,
        end: usize,
        known: Option<Hashed>,
        checked: &mut Checked,
    ) -> Result<(), Fault>
        requires within { number < (tables_of self.now).counts.names }
        requires end { IsLastEnd self.now.strings.now end }
        requires before { 0 < number → IsRight self.now (number - 1) }
        requires known { IsHashOfName self.now number known }
        requires checked { AreSound (tables_of self.now) checked.old }
        ensures value { wrong_in result ≡ wrong_in (name_at (tables_of self.now) (abbreviations_in (tables_of self.now).abbreviations) self.now.strings.now self.now.base number) }
        ensures checked { OnOk result (AreSound (tables_of self.now) checked.new) }
    {
        if !self.has_string(number, end) {
            return Err(fault(NAMES_STRING_OFFSET, self.tables.strings.place(number)));
        }
        self.check_hash(number, known)?;
        self.check_entries(number, checked)
    }

    // Whether a name has a string: it begins before the last one ends.
    fn has_string(&self, number: usize, end: usize) -> bool
        requires within { number < (tables_of self.now).counts.names }
        requires end { IsLastEnd self.now.strings.now end }
        ensures { result ≡ is_some (string_at (tables_of self.now) self.now.strings.now self.now.base number) }
    {
        let offset = self.tables.strings.get(number);
        if offset < self.base {
            return false;
        }
        offset - self.base < end as u64
    }

    /// Whether a name that has a string is this one.
    pub fn has_text(&self, number: usize, name: &[u8]) -> bool
        requires { number < (tables_of self.now).counts.names }
        ensures { (text : List ℕ) → string_at (tables_of self.now) self.now.strings.now self.now.base number ≡ Some text → result ≡ bytes_eq text name.now }
    {
        let offset = self.tables.strings.get(number);
        if offset < self.base {
            return false;
        }
        let offset = offset - self.base;
        if offset > self.strings.len() as u64 {
            return false;
        }
        is_text(&self.strings[offset as usize..], name)
    }

    /// The string of a name, None where its offset is no offset of the strings or no zero ends it.
    pub fn string(&self, number: usize) -> Option<&'a [u8]>
        requires { number < (tables_of self.now).counts.names }
        ensures { option_map (λ s. s.now) result ≡ string_at (tables_of self.now) self.now.strings.now self.now.base number }
    {
        let offset = self.tables.strings.get(number);
        if offset < self.base {
            return None;
        }
        text_at(self.strings, offset - self.base)
    }

    // Where there are buckets, whether a name has its hash and stands in its bucket.
    fn check_hash(&self, number: usize, known: Option<Hashed>) -> Result<(), Fault>
        requires within { number < (tables_of self.now).counts.names }
        requires before { 0 < number → IsRight self.now (number - 1) }
        requires known { IsHashOfName self.now number known }
        ensures { (name : List ℕ) → string_at (tables_of self.now) self.now.strings.now self.now.base number ≡ Some name → GivesAlways (λ _. record {}) result (is_hashed (tables_of self.now) number name) }
    {
        let tables = &self.tables;
        if tables.counts.buckets == 0 {
            return Ok(());
        }
        if !self.has_hash(number, known) {
            return Err(fault(NAMES_HASH, tables.hashes.place(number)));
        }
        if !tables.is_in_bucket(number) {
            return Err(fault(NAMES_BUCKET, tables.hashes.place(number)));
        }
        Ok(())
    }

    // The first fault of the entries of a name.
    fn check_entries(&self, number: usize, checked: &mut Checked) -> Result<(), Fault>
        requires within { number < (tables_of self.now).counts.names }
        requires checked { AreSound (tables_of self.now) checked.old }
        ensures value { wrong_in result ≡ wrong_in (entries_of_name (tables_of self.now) (abbreviations_in (tables_of self.now).abbreviations) number) }
        ensures checked { OnOk result (AreSound (tables_of self.now) checked.new) }
    {
        match self.tables.entries_of(number) {
            None => Err(fault(NAMES_ENTRY_POOL, self.tables.entries.place(number))),
            Some(cursor) => self.check_list(cursor, checked),
        }
    }

    // The first fault of the entries from a place of the pool on. None is read twice, however many lists it ends.
    fn check_list(&self, mut cursor: Cursor<'a>, checked: &mut Checked) -> Result<(), Fault>
        requires inside { IsIn (tables_of self.now).pool cursor }
        requires checked { AreSound (tables_of self.now) checked.old }
        ensures value { wrong_in result ≡ wrong_in (list_from (tables_of self.now) cursor.entry) }
        ensures checked { OnOk result (AreSound (tables_of self.now) checked.new) }
    {
        let pool = &self.tables.pool;
        // There are fewer entries than bytes.
        'entries: for _ in 0..pool.rest().len() + 1 {
            let place = cursor.at() - pool.at();
            if checked.has(place) {
                return Ok(());
            }
            // Should they have a fault, nothing that was checked is used again.
            checked.add(place);
            match self.read_entry(&mut cursor)? {
                None => return Ok(()),
                Some(_) => {}
            }
        }
        Err(fault(NAMES_ENTRY_POOL, cursor.at()))
    }
}

impl<'a> Tables<'a> {
    ghost use Rattle.debugnames_read.specs.Names.{list_at};

    /// Whether a name has this hash.
    pub fn has_number(&self, number: usize, hash: u32) -> bool
        requires some { 0 < (tables_seen self.now).counts.buckets }
        requires within { number < (tables_seen self.now).counts.names }
        ensures { result ≡ (nth (tables_seen self.now).hashes.numbers number == hash) }
    {
        self.hashes.get(number) == u64::from(hash)
    }

    /// Whether a name has its hash. One with a byte from 80 on may have any.
    pub fn has_hash(&self, number: usize, name: &[u8]) -> bool
        requires some { 0 < (tables_seen self.now).counts.buckets }
        requires within { number < (tables_seen self.now).counts.names }
        ensures { result ≡ has_hash name.now (nth (tables_seen self.now).hashes.numbers number) }
    {
        is_beyond_ascii(name) || self.has_number(number, name_hash(name))
    }

    /// Where the entries of a name begin, None where that is past the end of the pool.
    pub fn entries_of(&self, number: usize) -> Option<Cursor<'a>>
        requires { number < (tables_seen self.now).counts.names }
        ensures { result ≡ list_at (tables_seen self.now) number }
    {
        let mut cursor = self.pool.copied();
        cursor.skip(self.entries.get(number))?;
        Some(cursor)
    }
}
