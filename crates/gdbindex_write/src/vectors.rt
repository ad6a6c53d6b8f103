//! The distinct vectors, numbered in the order in which the names use them.

ghost use Rattle.std.specs.Prelude.{◌≡◌, ◌<◌, ◌^◌, ◌++◌, [], length, map, flat_map, bytes_eq, All, IfOk, OnOk};
ghost use Rattle.std.specs.List.{position_or_len};
ghost use Rattle.index_model.specs.GdbIndex.{vector_bytes};
ghost use Rattle.index_model.specs.Ordered.{distinct, place_of};
ghost use Rattle.gdbindex_write.specs.Symbols.{AreWithin, vectors_of};
ghost use Rattle.gdbindex_write.specs.Pools.{vectors_seen};
ghost use Rattle.gdbindex_write.specs.Vectors.{AreVectorsOf, with_vector};

use crate::put::put_u32;
use crate::symbols::Symbols;
use indexmap::IndexSet;
use ix_base::NoMemory;
use std::alloc::Global;

/// The distinct vectors, and the number of each symbol's own among them.
#[derive(Drop)]
pub(crate) struct Vectors<'s> {
    pub distinct: Vec<&'s [u32]>,
    pub numbers: Vec<usize>,
}

impl<'s> Vectors<'s> {
    /// The vectors of the symbols.
    pub(crate) fn of(alloc: Global, symbols: &'s Symbols<'_>) -> Result<Vectors<'s>, NoMemory>
        requires { AreWithin (length symbols.now.elements.items) symbols.now.list.items }
        ensures { IfOk result (AreVectorsOf (vectors_of symbols.now.elements.items symbols.now.list.items)) }
    {
        let numbers = Vec::with_capacity(alloc, symbols.list.len())?;
        let mut vectors = Vectors {
            distinct: Vec::new(alloc),
            numbers,
        };
        vectors.fill(alloc, symbols)?;
        Ok(vectors)
    }

    // Fills empty ones with the vectors of the symbols.
    fn fill(&mut self, alloc: Global, symbols: &'s Symbols<'_>) -> Result<(), NoMemory>
        requires within { AreWithin (length symbols.now.elements.items) symbols.now.list.items }
        requires no_vector { self.now.distinct.items ≡ [] }
        requires no_number { self.now.numbers.items ≡ [] }
        ensures { OnOk result (AreVectorsOf (vectors_of symbols.now.elements.items symbols.now.list.items) self.new) }
    {
        let mut set = IndexSet::with_capacity(alloc, symbols.list.len())?;
        self.fill_by(&mut set, symbols)
    }

    // The same by a set without keys.
    fn fill_by(
        &mut self,
        set: &mut IndexSet<&'s [u32]>,
        symbols: &'s Symbols<'_>,
    ) -> Result<(), NoMemory>
        requires within { AreWithin (length symbols.now.elements.items) symbols.now.list.items }
        requires no_key { set.now.keys ≡ [] }
        requires no_vector { self.now.distinct.items ≡ [] }
        requires no_number { self.now.numbers.items ≡ [] }
        ensures { OnOk result (AreVectorsOf (vectors_of symbols.now.elements.items symbols.now.list.items) self.new) }
    {
        number_vectors(symbols, set, &mut self.numbers)?;
        self.distinct.extend_from_slice(set.as_slice())?;
        Ok(())
    }
}

// Adds each symbol's vector to an empty set, and appends its number there.
fn number_vectors<'s>(
    symbols: &'s Symbols<'_>,
    set: &mut IndexSet<&'s [u32]>,
    numbers: &mut Vec<usize>,
) -> Result<(), NoMemory>
    requires within { AreWithin (length symbols.now.elements.items) symbols.now.list.items }
    requires no_keys { set.now.keys ≡ [] }
    requires empty { numbers.now.items ≡ [] }
    ensures set { OnOk result (vectors_seen set.new.keys ≡ distinct bytes_eq (vectors_of symbols.now.elements.items symbols.now.list.items)) }
    ensures numbers { OnOk result (numbers.new.items ≡ map (λ w. place_of bytes_eq w (distinct bytes_eq (vectors_of symbols.now.elements.items symbols.now.list.items))) (vectors_of symbols.now.elements.items symbols.now.list.items)) }
{
    for symbol in &symbols.list {
        let vector = &symbols.elements[symbol.start..symbol.end];
        numbers.push(insert(set, vector)?)?;
    }
    Ok(())
}

// The number of a vector in the set, to which it is added if it is new.
fn insert<'s>(set: &mut IndexSet<&'s [u32]>, vector: &'s [u32]) -> Result<usize, NoMemory>
    ensures set { OnOk result (vectors_seen set.new.keys ≡ with_vector vector.now (vectors_seen set.old.keys)) }
    ensures number { IfOk result (λ n. n ≡ position_or_len (bytes_eq vector.now) (vectors_seen set.old.keys)) }
{
    Ok(set.insert_full(vector)?.0)
}

/// Appends the vectors, each behind the number of its elements.
pub(crate) fn put_vectors(out: &mut Vec<u8>, vectors: &[&[u32]]) -> Result<(), NoMemory>
    requires { All (λ v. length v.now < 2 ^ 32) vectors.now }
    ensures { OnOk result (out.new.items ≡ out.old.items ++ flat_map vector_bytes (map (λ v. v.now) vectors.now)) }
{
    for vector in vectors {
        put_vector(out, vector)?;
    }
    Ok(())
}

// Appends the number of the elements, and the elements.
fn put_vector(out: &mut Vec<u8>, elements: &[u32]) -> Result<(), NoMemory>
    requires { length elements.now < 2 ^ 32 }
    ensures { OnOk result (out.new.items ≡ out.old.items ++ vector_bytes elements.now) }
{
    put_u32(out, elements.len() as u32)?;
    for element in elements {
        put_u32(out, *element)?;
    }
    Ok(())
}
