//! How many bytes the areas have.

ghost use Rattle.std.specs.Prelude.{◌≡◌, ◌≤◌, ◌<◌, ◌-◌, ◌^◌, ◌==◌, if◌then◌else◌, min, length, IfSome, IfNone};
ghost use Rattle.gdbindex_write.specs.Pools.{pool_seen, vectors_seen};
ghost use Rattle.gdbindex_write.specs.Sizes.{names_size, sizes_of, total, vectors_size};
ghost use Rattle.gdbindex_write.specs.Symbols.{names_of};

use crate::numbers::count_plain;
use crate::slots::slot_count;
use crate::symbols::Symbol;
use index_model::{Unit, UnitRange};

/// The most bytes that an index has: each offset in it has 32 bits.
const MAX_INDEX_BYTES: u64 = 4_294_967_295;

/// How many bytes the areas have. The constant pool is the vectors and the names.
#[derive(Clone, Copy)]
pub(crate) struct Sizes {
    pub units: u64,
    pub types: u64,
    pub addresses: u64,
    pub slots: u64,
    pub vectors: u64,
    pub names: u64,
}

impl Sizes {
    /// The sizes of the areas, or None where the index has too many bytes.
    pub(crate) fn of(
        units: &[Unit],
        pieces: &[UnitRange],
        symbols: &[Symbol<'_>],
        vectors: &[&[u32]],
        version: u8,
    ) -> Option<Sizes>
        requires few { length units.now ≤ 16777215 }
        ensures sizes { IfSome result (λ s. s ≡ sizes_of units.now pieces.now (pool_seen symbols.now vectors.now)) }
        ensures fits { IfSome result (λ s. total version s ≤ 4294967295) }
        ensures too_large { IfNone result (4294967295 < total version (sizes_of units.now pieces.now (pool_seen symbols.now vectors.now))) }
    {
        let names = names_size(symbols);
        if names > MAX_INDEX_BYTES {
            return None;
        }
        let plain = u64::from(count_plain(units));
        let sizes = Sizes {
            units: 16 * plain,
            types: 24 * (units.len() as u64 - plain),
            addresses: (pieces.len() as u64).saturating_mul(20),
            slots: 8 * slot_count(symbols.len() as u64),
            vectors: vectors_size(vectors),
            names,
        };
        let bounded = header_size(version) + sizes.units + sizes.types + sizes.slots + names;
        let total = bounded
            .saturating_add(sizes.addresses)
            .saturating_add(sizes.vectors);
        if total <= MAX_INDEX_BYTES {
            Some(sizes)
        } else {
            None
        }
    }

    /// The bytes of an index that isn't too large.
    pub(crate) fn total(&self, version: u8) -> u64
        requires { total version self.now ≤ 4294967295 }
        ensures { result ≡ total version self.now }
    {
        header_size(version)
            + self.units
            + self.types
            + self.addresses
            + self.slots
            + self.vectors
            + self.names
    }
}

// The bytes of the header, and in version 9 those of the shortcut.
fn header_size(version: u8) -> u64
    ensures { result ≡ (if version == 9 then 36 else 24) }
{
    if version == 9 { 36 } else { 24 }
}

// The bytes of the names, each with a zero.
fn names_size(symbols: &[Symbol<'_>]) -> u64
    ensures exact { result ≡ min (names_size (names_of symbols.now)) (2 ^ 64 - 1) }
    ensures some { result ≤ 4294967295 → length symbols.now ≤ result }
{
    let mut size: u64 = 0;
    for symbol in symbols {
        size = size
            .saturating_add(symbol.name.len() as u64)
            .saturating_add(1);
    }
    size
}

// The bytes of the vectors, each behind the number of its elements.
fn vectors_size(vectors: &[&[u32]]) -> u64
    ensures { result ≡ min (vectors_size (vectors_seen vectors.now)) (2 ^ 64 - 1) }
{
    let mut size: u64 = 0;
    for vector in vectors {
        size = size
            .saturating_add((vector.len() as u64).saturating_mul(4))
            .saturating_add(4);
    }
    size
}
