//! The names of the symbol table and the elements of their vectors.

ghost use Rattle.std.specs.Prelude.{◌≡◌, ◌<◌, ◌∷◌, ◌++◌, [], length, All, IfOk, OnOk};
ghost use Rattle.gdbindex_write.specs.Symbols.{AreSymbolsOf, AreWithin, groups_seen};

use crate::elements::fill_vector;
use ix_base::NoMemory;
use query_engine::Table;
use std::alloc::Global;

/// A name of the symbol table, and where the elements of its vector stand among those of all names.
#[derive(Clone, Copy)]
pub(crate) struct Symbol<'r> {
    pub name: &'r [u8],
    pub start: usize,
    pub end: usize,
}

/// The distinct names in byte order, and the elements of all their vectors, one vector after the other.
#[derive(Drop)]
pub(crate) struct Symbols<'r> {
    pub list: Vec<Symbol<'r>>,
    pub elements: Vec<u32>,
}

impl<'r> Symbols<'r> {
    /// The symbols of the entries that aren't linkage entries. The numbers are those of the units in the index.
    pub(crate) fn of(
        alloc: Global,
        numbers: &[u32],
        table: &'r Table<'_>,
    ) -> Result<Symbols<'r>, NoMemory>
        requires small { All (λ n. n < 16777216) numbers.now }
        requires units { All (λ e. e.unit < length numbers.now) table.now }
        ensures { IfOk result (AreSymbolsOf numbers.now table.now) }
    {
        let list = Vec::with_capacity(alloc, table.distinct() as usize)?;
        let elements = Vec::new(alloc);
        let mut symbols = Symbols { list, elements };
        let mut vector = Vec::new(alloc);
        for index in 0..table.name_count() {
            fill_vector(
                &mut vector,
                numbers,
                table.entries(),
                table.places_at(index),
            )?;
            // A name that linkage entries alone have is none of the index.
            if !vector.is_empty() {
                symbols.push(table.name_at(index), &vector)?;
            }
        }
        Ok(symbols)
    }

    // Appends a name and its vector.
    fn push(&mut self, name: &'r [u8], vector: &[u32]) -> Result<(), NoMemory>
        requires { AreWithin (length self.now.elements.items) self.now.list.items }
        ensures groups { OnOk result (groups_seen self.new.elements.items self.new.list.items ≡ groups_seen self.old.elements.items self.old.list.items ++ (name.now, vector.now) ∷ []) }
        ensures within { OnOk result (AreWithin (length self.new.elements.items) self.new.list.items) }
    {
        let start = self.elements.len();
        self.elements.extend_from_slice(vector)?;
        self.list.push(Symbol {
            name,
            start,
            end: self.elements.len(),
        })?;
        Ok(())
    }
}
