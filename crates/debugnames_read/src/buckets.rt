//! The buckets: which names have the hash of a name (DWARF 5, section 6.1.1.4.4).

ghost use Rattle.std.specs.Prelude.{◌≡◌, IfSome, ℕ, ◌<◌, ◌≤◌, ◌-◌, ◌%◌, true, find};
ghost use Rattle.index_model.specs.Layout.{nth};
ghost use Rattle.index_model.specs.NameIndexRead.{is_in_bucket};
ghost use Rattle.debugnames_read.specs.Names.{is_named, is_other_hash, tables_of, up_to, Covers, IsHashOf, IsOpened};
ghost use Rattle.debugnames_read.specs.Tables.{tables_seen};

use crate::hash::{is_beyond_ascii, name_hash};
use crate::names::IndexTables;
use crate::tables::Tables;

/// A name that is looked for, and its hash where the names are found by their hashes.
#[derive(Clone, Copy)]
pub(crate) struct AskedName<'n> {
    pub name: &'n [u8],
    pub hash: Option<u32>,
}

/// The numbers of names from one up to another, which isn't among them.
#[derive(Clone, Copy)]
pub(crate) struct NameNumbers {
    pub from: usize,
    pub to: usize,
}

impl<'a> Tables<'a> {
    // The bucket of a name.
    fn bucket_of(&self, number: usize) -> usize
        requires some { 0 < (tables_seen self.now).counts.buckets }
        requires within { number < (tables_seen self.now).counts.names }
        ensures value { result ≡ nth (tables_seen self.now).hashes.numbers number % (tables_seen self.now).counts.buckets }
        ensures within { result < (tables_seen self.now).counts.buckets }
    {
        (self.hashes.get(number) % u64::from(self.counts.buckets)) as usize
    }

    /// Whether the bucket of a name begins at one of its own names and has names of its own alone from there up to this one.
    /// The name before this one is in its bucket, so the names before it needn't be looked at.
    pub fn is_in_bucket(&self, number: usize) -> bool
        requires some { 0 < (tables_seen self.now).counts.buckets }
        requires within { number < (tables_seen self.now).counts.names }
        requires before { 0 < number → is_in_bucket (tables_seen self.now) (number - 1) ≡ true }
        ensures { result ≡ is_in_bucket (tables_seen self.now) number }
    {
        let own = self.bucket_of(number);
        if self.buckets.get(own) == number as u64 + 1 {
            return true;
        }
        if number == 0 {
            return false;
        }
        self.bucket_of(number - 1) == own
    }

    // Whether a name has another hash than the one that is looked for, if there is one.
    fn has_other_hash(&self, number: usize, hash: Option<u32>) -> bool
        requires some { IfSome hash (λ _. 0 < (tables_seen self.now).counts.buckets) }
        requires within { number < (tables_seen self.now).counts.names }
        ensures { result ≡ is_other_hash (tables_seen self.now) number hash }
    {
        match hash {
            Some(hash) => self.hashes.get(number) != u64::from(hash),
            None => false,
        }
    }

    // Where the names of a bucket end that begin at a number.
    fn end_of(&self, own: usize, from: usize) -> usize
        requires some { 0 < (tables_seen self.now).counts.buckets }
        requires within { from ≤ (tables_seen self.now).counts.names }
        ensures within { from ≤ result × result ≤ (tables_seen self.now).counts.names }
        ensures all { (k : ℕ) → from ≤ k → k < (tables_seen self.now).counts.names → ((j : ℕ) → from ≤ j → j ≤ k → nth (tables_seen self.now).hashes.numbers j % (tables_seen self.now).counts.buckets ≡ own) → k < result }
    {
        let names = self.counts.names as usize;
        for number in from..names {
            if self.bucket_of(number) != own {
                return number;
            }
        }
        names
    }
}

impl<'a> IndexTables<'a> {
    /// A name, with its hash where there are buckets and the name has no byte from 80 on.
    pub fn sought<'n>(&self, name: &'n [u8]) -> AskedName<'n>
        ensures name { result.name.now ≡ name.now }
        ensures hash { IsHashOf (tables_of self.now) result }
    {
        if self.tables.counts.buckets == 0 || is_beyond_ascii(name) {
            return AskedName { name, hash: None };
        }
        AskedName {
            name,
            hash: Some(name_hash(name)),
        }
    }

    /// The names among which all are that have the name: those of its bucket, or else all.
    pub fn span(&self, sought: &AskedName<'_>) -> NameNumbers
        requires opened { IsOpened self.now }
        requires hash { IsHashOf (tables_of self.now) sought.now }
        ensures within { result.from ≤ result.to × result.to ≤ (tables_of self.now).counts.names }
        ensures covers { Covers self.now sought.now.name.now result }
    {
        match sought.hash {
            Some(hash) => self.bucket_span(hash),
            None => NameNumbers {
                from: 0,
                to: self.len(),
            },
        }
    }

    // The names of the bucket of a hash.
    fn bucket_span(&self, hash: u32) -> NameNumbers
        requires opened { IsOpened self.now }
        requires some { 0 < (tables_of self.now).counts.buckets }
        ensures within { result.from ≤ result.to × result.to ≤ (tables_of self.now).counts.names }
        ensures covers { (k : ℕ) → k < (tables_of self.now).counts.names → nth (tables_of self.now).hashes.numbers k ≡ hash → result.from ≤ k × k < result.to }
    {
        let own = (hash % self.tables.counts.buckets) as usize;
        let begin = self.tables.buckets.get(own) as usize;
        if begin == 0 {
            return NameNumbers { from: 0, to: 0 };
        }
        NameNumbers {
            from: begin - 1,
            to: self.tables.end_of(own, begin - 1),
        }
    }

    // Whether a name is the one that is looked for. Its hash is compared first.
    fn is_named(&self, number: usize, sought: &AskedName<'_>) -> bool
        requires opened { IsOpened self.now }
        requires hash { IsHashOf (tables_of self.now) sought.now }
        requires within { number < (tables_of self.now).counts.names }
        ensures { result ≡ is_named self.now sought.now.name.now number }
    {
        if self.tables.has_other_hash(number, sought.hash) {
            return false;
        }
        self.has_text(number, sought.name)
    }

    /// The first number of a span whose name is the one that is looked for.
    pub fn first(&self, sought: &AskedName<'_>, span: NameNumbers) -> Option<usize>
        requires opened { IsOpened self.now }
        requires hash { IsHashOf (tables_of self.now) sought.now }
        requires within { span.to ≤ (tables_of self.now).counts.names }
        ensures { result ≡ find (is_named self.now sought.now.name.now) (up_to span.from span.to) }
    {
        for number in span.from..span.to {
            if self.is_named(number, sought) {
                return Some(number);
            }
        }
        None
    }
}
