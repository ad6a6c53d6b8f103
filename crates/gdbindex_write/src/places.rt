//! Where names and vectors stand in the constant pool.

ghost use Rattle.std.specs.Prelude.{◌≡◌, ◌≤◌, ◌<◌, ◌+◌, length, map, take, All, IfOk};
ghost use Rattle.index_model.specs.Layout.{below};
ghost use Rattle.gdbindex_write.specs.Places.{places_of};
ghost use Rattle.gdbindex_write.specs.Pools.{vectors_seen};
ghost use Rattle.gdbindex_write.specs.Sizes.{names_size, vectors_size};
ghost use Rattle.gdbindex_write.specs.Symbols.{names_of};

use crate::symbols::Symbol;
use crate::vectors::Vectors;
use ix_base::NoMemory;
use std::alloc::Global;

/// The place of a name in the constant pool, and that of its vector.
#[derive(Clone, Copy)]
pub(crate) struct Slot {
    pub name: u32,
    pub vector: u32,
}

/// The places of the symbols' names and vectors. The names stand behind the vectors.
pub(crate) fn places(
    alloc: Global,
    symbols: &[Symbol<'_>],
    vectors: &Vectors<'_>,
    names_at: u64,
) -> Result<Vec<Slot>, NoMemory>
    requires size { names_at ≡ vectors_size (vectors_seen vectors.now.distinct.items) }
    requires small { names_at + names_size (names_of symbols.now) ≤ 4294967295 }
    requires each { length vectors.now.numbers.items ≡ length symbols.now }
    requires numbers { All (λ n. n < length vectors.now.distinct.items) vectors.now.numbers.items }
    ensures { IfOk result (λ v. v.items ≡ places_of symbols.now vectors.now.distinct.items vectors.now.numbers.items) }
{
    let starts = vector_starts(alloc, &vectors.distinct)?;
    let mut places = Vec::with_capacity(alloc, symbols.len())?;
    let mut name = names_at;
    for (i, symbol) in symbols.iter().enumerate() {
        places.push(Slot {
            name: name as u32,
            vector: starts[vectors.numbers[i]],
        })?;
        name += symbol.name.len() as u64 + 1;
    }
    Ok(places)
}

// Where each vector begins.
fn vector_starts(alloc: Global, vectors: &[&[u32]]) -> Result<Vec<u32>, NoMemory>
    requires { vectors_size (vectors_seen vectors.now) ≤ 4294967295 }
    ensures { IfOk result (λ v. v.items ≡ map (λ k. vectors_size (vectors_seen (take k vectors.now))) (below (length vectors.now))) }
{
    let mut starts = Vec::with_capacity(alloc, vectors.len())?;
    let mut start: u64 = 0;
    for vector in vectors {
        starts.push(start as u32)?;
        start += 4 + 4 * vector.len() as u64;
    }
    Ok(starts)
}
