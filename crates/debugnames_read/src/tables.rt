//! The counts and the tables of an index.

ghost use Rattle.std.specs.Prelude.{◌≡◌, ◌<◌, ◌+◌, ◌*◌, ◌^◌, length, option_map, false};
ghost use Rattle.ix_base.specs.Moves.{MovesOn, Reads};
ghost use Rattle.index_model.specs.NameTables.{counts, rounded, tables_behind};
ghost use Rattle.index_model.specs.Strings.{offset_size};
ghost use Rattle.debugnames_read.specs.Numbers.{hash_count, number_count};

use crate::numbers::{Numbers, size_of};
use ix_base::Cursor;

/// The counts of a header (DWARF 5, section 6.1.1.4.1).
#[derive(Clone, Copy)]
pub(crate) struct Counts {
    /// Compile units.
    pub cus: u32,
    /// Local type units.
    pub local: u32,
    /// Foreign type units.
    pub foreign: u32,
    pub buckets: u32,
    pub names: u32,
    /// Bytes of the abbreviations.
    pub abbreviations: u32,
    /// Bytes of the augmentation string.
    pub augmentation: u32,
}

impl Counts {
    ghost use Rattle.debugnames_read.specs.Tables.{counts_seen};

    #[tactic(auto, unfolding(index_model::specs::NameTables::counts))]
    fn read(cursor: &mut Cursor<'_>) -> Option<Counts>
        ensures value { Reads counts_seen counts cursor.old cursor.new result }
        ensures place { MovesOn cursor.old cursor.new }
    {
        let cus = cursor.u32()?;
        let local = cursor.u32()?;
        let foreign = cursor.u32()?;
        let buckets = cursor.u32()?;
        let names = cursor.u32()?;
        let abbreviations = cursor.u32()?;
        let augmentation = cursor.u32()?;
        Some(Counts {
            cus,
            local,
            foreign,
            buckets,
            names,
            abbreviations,
            augmentation,
        })
    }

    // How many bytes the augmentation string has, with what fills it up.
    fn augmentation_length(&self) -> u64
        ensures { result ≡ rounded self.now.augmentation }
    {
        (u64::from(self.augmentation) + 3) / 4 * 4
    }

    // How many bytes the lists of units have.
    fn units_length(&self, wide: bool) -> u64
        ensures { result ≡ (self.now.cus + self.now.local) * offset_size wide + self.now.foreign * 8 }
    {
        let offsets = u64::from(self.cus) + u64::from(self.local);
        offsets * size_of(wide) as u64 + u64::from(self.foreign) * 8
    }

    // How many hashes there are: without buckets there are none.
    fn hashes(&self) -> u32
        ensures { result ≡ hash_count self.now.buckets self.now.names }
    {
        if self.buckets == 0 { 0 } else { self.names }
    }
}

/// What stands behind the counts, but for the units.
#[derive(Drop)]
pub(crate) struct Tables<'a> {
    /// Whether the format is the 64-bit one.
    pub wide: bool,
    pub counts: Counts,
    /// For each bucket the number of its first name, counted from 1, or 0.
    pub buckets: Numbers<'a>,
    /// For each name its hash; none without buckets.
    pub hashes: Numbers<'a>,
    /// For each name the offset of its string.
    pub strings: Numbers<'a>,
    /// For each name the offset of its entries in the pool.
    pub entries: Numbers<'a>,
    pub abbreviations: Cursor<'a>,
    pub pool: Cursor<'a>,
    ghost bucket_count: { number_count buckets.wide buckets.bytes.now ≡ counts.buckets },
    ghost hash_count: { number_count hashes.wide hashes.bytes.now ≡ hash_count counts.buckets counts.names },
    ghost string_count: { number_count strings.wide strings.bytes.now ≡ counts.names },
    ghost entry_count: { number_count entries.wide entries.bytes.now ≡ counts.names },
    ghost bucket_size: { buckets.wide ≡ false },
    ghost hash_size: { hashes.wide ≡ false },
    ghost string_size: { strings.wide ≡ wide },
    ghost entry_size: { entries.wide ≡ wide },
}

impl<'a> Tables<'a> {
    ghost use Rattle.debugnames_read.specs.Tables.{counts_seen, tables_at, tables_listed, tables_seen};

    /// The counts and the tables behind the padding, None where one of them passes the end.
    #[tactic(auto, unfolding(crate::specs::Tables::tables_at))]
    pub fn read(wide: bool, mut cursor: Cursor<'a>) -> Option<Tables<'a>>
        requires { cursor.at + length cursor.rest < 2 ^ 63 }
        ensures { option_map tables_seen result ≡ tables_at wide cursor.entry }
    {
        cursor.u16()?;
        let counts = Counts::read(&mut cursor)?;
        Tables::behind(wide, counts, cursor)
    }

    // The tables behind the counts.
    #[tactic(auto, unfolding(index_model::specs::NameTables::tables_behind, crate::specs::Tables::tables_listed))]
    fn behind(wide: bool, counts: Counts, mut cursor: Cursor<'a>) -> Option<Tables<'a>>
        requires { cursor.at + length cursor.rest < 2 ^ 63 }
        ensures { option_map tables_seen result ≡ tables_behind wide (counts_seen counts) cursor.entry }
    {
        cursor.part(counts.augmentation_length())?;
        cursor.part(counts.units_length(wide))?;
        Tables::listed(wide, counts, cursor)
    }

    // The tables behind the lists of units.
    #[tactic(auto, unfolding(crate::specs::Tables::tables_listed))]
    fn listed(wide: bool, counts: Counts, mut cursor: Cursor<'a>) -> Option<Tables<'a>>
        requires { cursor.at + length cursor.rest < 2 ^ 63 }
        ensures { option_map tables_seen result ≡ tables_listed wide (counts_seen counts) cursor.entry }
    {
        let buckets = Numbers::read(false, counts.buckets, &mut cursor)?;
        let hashes = Numbers::read(false, counts.hashes(), &mut cursor)?;
        let strings = Numbers::read(wide, counts.names, &mut cursor)?;
        let entries = Numbers::read(wide, counts.names, &mut cursor)?;
        let abbreviations = cursor.part(u64::from(counts.abbreviations))?;
        Some(Tables {
            wide,
            counts,
            buckets,
            hashes,
            strings,
            entries,
            abbreviations,
            pool: cursor,
        })
    }
}
