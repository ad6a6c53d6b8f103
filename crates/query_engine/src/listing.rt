//! The names under which a `.debug_names` lists entries (DWARF 5, section 6.1.1.1).

ghost use Rattle.std.specs.Prelude.{OnOk, IfOk};
ghost use Rattle.query_engine.specs.Listed.{AddsName, IsEmpty};

use std::alloc::{AllocError, Global};

/// A name, and how many entries stand under it.
#[derive(Clone, Copy)]
pub struct ListedName<'t> {
    pub name: &'t [u8],
    pub count: usize,
}

/// Entries by the names under which they are listed. The names ascend by bytes.
#[derive(Drop)]
pub struct ListedNames<'t> {
    pub names: Vec<ListedName<'t>>,
    /// The ascending places of the entries of each name, those of one name after those of another.
    pub places: Vec<u32>,
}

impl<'t> ListedNames<'t> {
    /// No names, with room for so many names and entries.
    pub(crate) fn with_capacity(
        alloc: Global,
        names: usize,
        entries: usize,
    ) -> Result<ListedNames<'t>, AllocError>
        ensures { IfOk result IsEmpty }
    {
        Ok(ListedNames {
            names: Vec::with_capacity(alloc, names)?,
            places: Vec::with_capacity(alloc, entries)?,
        })
    }

    /// Appends a name and the places of its entries.
    pub(crate) fn push(&mut self, name: &'t [u8], places: &[u32]) -> Result<(), AllocError>
        ensures { OnOk result (AddsName name.now places.now self.old self.new) }
    {
        self.places.extend_from_slice(places)?;
        self.names.push(ListedName {
            name,
            count: places.len(),
        })?;
        Ok(())
    }
}
