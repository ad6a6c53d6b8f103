//! The entries of a name.

ghost use Rattle.std.specs.Prelude.{◌≡◌, [], MatchOption, ◌∷◌};
ghost use Rattle.std.specs.Iterator.{YieldsFirstBy, item_count};
ghost use Rattle.index_model.specs.NameIndexRead.{name_index_hits};
ghost use Rattle.debugnames_read.specs.Entries.{hit_seen};
ghost use Rattle.debugnames_read.specs.Hits.{entries_left, hits_left, IsLeft, IsList};
ghost use Rattle.debugnames_read.specs.Names.{index_seen, tables_of, IsHashOf, IsOpened};

use crate::buckets::{AskedName, NameNumbers};
use crate::entry::NameHit;
use crate::names::IndexTables;
use ix_base::Cursor;
use std::marker::Model;

/// The entries of a name that are still to come, in the order of the table. Contracts see them as a list.
#[derive(Drop)]
pub struct NameHits<'i, 'a> {
    names: &'i IndexTables<'a>,
    sought: AskedName<'a>,
    left: Left<'a>,
}

// What is left of a look-up: of the entries of one name, and of the names.
#[derive(Drop)]
pub(crate) struct Left<'a> {
    entries: Option<Cursor<'a>>,
    names: NameNumbers,
}

impl<'i, 'a> Model for NameHits<'i, 'a> {
    ghost use Rattle.std.specs.Prelude.{List};
    ghost use Rattle.index_model.specs.NameIndexRead.{NameHit as Meaning};

    ghost Value = { List Meaning };

    ghost use Rattle.debugnames_read.specs.Hits.{hits_left, IsLookUp};

    ghost view = { λ h. hits_left h.names.now h.sought.name.now h.left };

    ghost invariant = { λ h. IsLookUp h.names.now h.sought h.left };
}

impl<'i, 'a> NameHits<'i, 'a> {
    /// The entries of a name of an index without a fault.
    pub(crate) fn of(names: &'i IndexTables<'a>, name: &[u8]) -> NameHits<'i, 'a>
        requires { IsOpened names.now }
        ensures { result ≡ name_index_hits (index_seen names.now) name.now }
    {
        let asked = names.sought(name);
        let span = names.span(&asked);
        let Some(first) = names.first(&asked, span) else {
            return NameHits::none(names);
        };
        // The name itself isn't kept, but an equal one of the index.
        let Some(name) = names.string(first) else {
            return NameHits::none(names);
        };
        let sought = AskedName {
            name,
            hash: asked.hash,
        };
        let left = Left {
            entries: names.tables.entries_of(first),
            names: NameNumbers {
                from: first + 1,
                to: span.to,
            },
        };
        NameHits {
            names,
            sought,
            left,
        }
    }

    // No entries.
    fn none(names: &'i IndexTables<'a>) -> NameHits<'i, 'a>
        requires { IsOpened names.now }
        ensures { result ≡ [] }
    {
        NameHits {
            names,
            sought: AskedName {
                name: &[],
                hash: None,
            },
            left: Left {
                entries: None,
                names: NameNumbers { from: 0, to: 0 },
            },
        }
    }
}

impl<'i, 'a> Iterator for NameHits<'i, 'a> {
    type Item = NameHit;

    ghost next_gives = { YieldsFirstBy hit_seen (λ hits. hits) };

    ghost remaining = { item_count (λ hits. hits) };

    fn next(&mut self) -> Option<NameHit> {
        self.names.next_hit(&self.sought, &mut self.left)
    }
}

impl<'a> IndexTables<'a> {
    // The next entry of what is left.
    fn next_hit(&self, sought: &AskedName<'a>, left: &mut Left<'a>) -> Option<NameHit>
        requires opened { IsOpened self.now }
        requires hash { IsHashOf (tables_of self.now) sought.now }
        requires left { IsLeft self.now left.old }
        ensures value { MatchOption result ((hits_left self.now sought.now.name.now left.old ≡ []) × (hits_left self.now sought.now.name.now left.new ≡ [])) (λ h. hits_left self.now sought.now.name.now left.old ≡ hit_seen h ∷ hits_left self.now sought.now.name.now left.new) }
        ensures left { IsLeft self.now left.new }
    {
        'names: loop {
            if let Some(hit) = self.next_entry(&mut left.entries) {
                return Some(hit);
            }
            let first = self.first(sought, left.names)?;
            left.names.from = first + 1;
            left.entries = self.tables.entries_of(first);
        }
    }

    // The next entry of a list. Behind the last one the list is gone.
    fn next_entry(&self, entries: &mut Option<Cursor<'a>>) -> Option<NameHit>
        requires { IsList (tables_of self.now) entries.old }
        ensures value { MatchOption result ((entries_left (tables_of self.now) entries.old ≡ []) × (entries_left (tables_of self.now) entries.new ≡ [])) (λ h. entries_left (tables_of self.now) entries.old ≡ hit_seen h ∷ entries_left (tables_of self.now) entries.new) }
        ensures list { IsList (tables_of self.now) entries.new }
    {
        let mut cursor = entries.take()?;
        match self.read_entry(&mut cursor) {
            Ok(Some(hit)) => {
                *entries = Some(cursor);
                Some(hit)
            }
            Ok(None) => None,
            Err(_) => None,
        }
    }
}
