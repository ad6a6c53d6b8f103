//! The whole index, and its look-up.

ghost use Rattle.std.specs.Prelude.{◌≡◌};
ghost use Rattle.std.specs.List.{enumerate_from};
ghost use Rattle.index_model.specs.Gives.{GivesAlways};
ghost use Rattle.index_model.specs.Meaning.{each, wrong_in};
ghost use Rattle.index_model.specs.NameIndexRead.{is_bucket, name_index, name_index_hits};
ghost use Rattle.debugnames_read.specs.Tables.{tables_seen};

use crate::header::fault;
use crate::hits::NameHits;
use crate::known::AbbreviationsByCode;
use crate::names::IndexTables;
use crate::tables::Tables;
use index_model::index_code::NAMES_BUCKET;
use ix_base::Fault;
use std::alloc::Global;
use std::marker::Model;

/// A `.debug_names` without a fault, and the strings of its names. It borrows the bytes, and contracts see what they mean.
#[derive(Drop)]
pub struct NameIndex<'a> {
    names: IndexTables<'a>,
}

impl<'a> Model for NameIndex<'a> {
    ghost use Rattle.index_model.specs.NameIndexRead.{NameIndex as Meaning};

    ghost Value = { Meaning };

    ghost use Rattle.debugnames_read.specs.Names.{index_seen, IsOpened};

    ghost view = { λ i. index_seen i.names };

    ghost invariant = { λ i. IsOpened i.names };
}

impl<'a> NameIndex<'a> {
    /// The index in these bytes, or its first fault, with its place in them. `strings` are the bytes of the string section
    /// from `base` on.
    ///
    /// Each abbreviation and each entry of the pool is read once, however many names share a list or begin their own inside
    /// one. An entry finds its abbreviation in a tree of codes, with a list of the attributes that have bytes or count, so it
    /// costs no more than its bytes. The names are hashed in one pass over their strings, however many are ends of one text, and
    /// each is compared with its bucket in constant time; where there are no buckets no name is read. So this costs n log n.
    /// Where no memory is left for the codes, for a mark at each byte of the pool or for the hashes the answer is the same, but an
    /// entry costs all abbreviations before its own, a list its reading for each name that shares it, and a name its string.
    pub fn open(
        alloc: Global,
        names: &'a [u8],
        strings: &'a [u8],
        base: u64,
    ) -> Result<NameIndex<'a>, Fault>
        ensures { GivesAlways (λ i. i) result (name_index names.now strings.now base) }
    {
        let tables = Tables::open(names)?;
        let known = AbbreviationsByCode::read(alloc, &tables.abbreviations)?;
        check_buckets(&tables)?;
        let names = IndexTables {
            tables,
            known,
            strings,
            base,
        };
        names.check(alloc)?;
        Ok(NameIndex { names })
    }

    /// The entries of all names that are the name, in the order of the table.
    ///
    /// Where there are buckets and the name has no byte from 80 on, only the names of its bucket are looked at. Otherwise all
    /// names are, one by one.
    pub fn find(&self, name: &[u8]) -> NameHits<'_, 'a>
        ensures { result ≡ name_index_hits self.now name.now }
    {
        NameHits::of(&self.names, name)
    }
}

// Whether each bucket holds the number of a name, or 0.
fn check_buckets(tables: &Tables<'_>) -> Result<(), Fault>
    ensures { wrong_in result ≡ wrong_in (each (is_bucket (tables_seen tables.now)) (enumerate_from 0 (tables_seen tables.now).buckets.numbers)) }
{
    let buckets = &tables.buckets;
    let count = buckets.len();
    for bucket in 0..count {
        if buckets.get(bucket) > u64::from(tables.counts.names) {
            return Err(fault(NAMES_BUCKET, buckets.place(bucket)));
        }
    }
    Ok(())
}
