//! The elements of a name's vector (GDB manual, "Index Section Format").

ghost use Rattle.std.specs.Prelude.{◌≡◌, ◌≤◌, ◌<◌, ◌∷◌, ◌++◌, [], length, All, OnOk};
ghost use Rattle.index_model.specs.Answers.{entries_at};
ghost use Rattle.index_model.specs.GdbIndex.{kind_number};
ghost use Rattle.gdbindex_write.specs.Elements.{element_by, elements_by, vector_by};

use index_model::{Entry, Kind};
use ix_base::NoMemory;

/// Fills a vector with the distinct elements of those entries at these places that aren't linkage entries, ascending. Units
/// have these numbers in the index.
pub(crate) fn fill_vector(
    vector: &mut Vec<u32>,
    numbers: &[u32],
    entries: &[Entry<'_>],
    places: &[u32],
) -> Result<(), NoMemory>
    requires small { All (λ n. n < 16777216) numbers.now }
    requires units { All (λ e. e.unit < length numbers.now) entries.now }
    requires places { All (λ p. p < length entries.now) places.now }
    ensures { OnOk result (vector.new.items ≡ vector_by numbers.now (entries_at entries.now places.now)) }
{
    vector.clear();
    push_elements(vector, numbers, entries, places)?;
    vector.sort_unstable();
    vector.dedup();
    Ok(())
}

// Appends the elements of those entries at these places that aren't linkage entries, in their order.
fn push_elements(
    elements: &mut Vec<u32>,
    numbers: &[u32],
    entries: &[Entry<'_>],
    places: &[u32],
) -> Result<(), NoMemory>
    requires small { All (λ n. n < 16777216) numbers.now }
    requires units { All (λ e. e.unit < length numbers.now) entries.now }
    requires places { All (λ p. p < length entries.now) places.now }
    ensures { OnOk result (elements.new.items ≡ elements.old.items ++ elements_by numbers.now (entries_at entries.now places.now)) }
{
    for place in places {
        push_element(elements, numbers, &entries[*place as usize])?;
    }
    Ok(())
}

// Appends the element of an entry that isn't a linkage entry.
fn push_element(elements: &mut Vec<u32>, numbers: &[u32], entry: &Entry<'_>) -> Result<(), NoMemory>
    requires small { All (λ n. n < 16777216) numbers.now }
    requires unit { entry.now.unit < length numbers.now }
    ensures { OnOk result (elements.new.items ≡ elements.old.items ++ elements_by numbers.now (entry.now ∷ [])) }
{
    if !entry.linkage {
        elements.push(element_of(numbers, entry))?;
    }
    Ok(())
}

// The element of an entry: the number of its unit in bits 0 to 23, its kind in bits 28 to 30, and whether it is static in bit
// 31.
fn element_of(numbers: &[u32], entry: &Entry<'_>) -> u32
    requires small { All (λ n. n < 16777216) numbers.now }
    requires unit { entry.now.unit < length numbers.now }
    ensures { result ≡ element_by numbers.now entry.now }
{
    let own = numbers[entry.unit as usize] + kind_number(entry.kind) * (1 << 28);
    if entry.local { own + (1 << 31) } else { own }
}

// The number of a kind.
fn kind_number(kind: Kind) -> u32
    ensures exact { result ≡ kind_number kind }
    ensures small { result ≤ 4 }
{
    match kind {
        Kind::TypeName => 1,
        Kind::Variable => 2,
        Kind::Function => 3,
        Kind::Other => 4,
    }
}
