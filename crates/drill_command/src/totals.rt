//! How large a program and its indexes are.

ghost use Rattle.std.specs.Prelude.{◌≡◌, IfOk};
ghost use Rattle.drill_command.specs.Drills.{totals_line};
ghost use Rattle.drill_command.specs.Summaries.{totals_seen};

use std::alloc::{AllocError, Global};

/// How large a program and its indexes are, and the name of its main program.
#[derive(Clone, Copy)]
pub(crate) struct Totals<'m> {
    pub units: usize,
    pub entries: usize,
    /// How many distinct names its entries have that aren't linkage entries.
    pub names: u64,
    /// The length of its `.gdb_index`.
    pub gdb_index: usize,
    /// The length of its `.debug_names`.
    pub name_index: usize,
    /// The length of the strings that this adds.
    pub strings: usize,
    /// Empty where the program has no main.
    pub main: &'m [u8],
}

impl Totals<'_> {
    /// The line that says so.
    pub(crate) fn line(&self, alloc: Global) -> Result<Vec<u8>, AllocError>
        ensures { IfOk result (λ text. text.items ≡ totals_line (totals_seen self.now)) }
    {
        let Totals {
            units,
            entries,
            names,
            gdb_index,
            name_index,
            strings,
            main,
        } = *self;
        let sizes = format!(in alloc;
            "units {units} entries {entries} names {names} gdb8 {gdb_index} dbgnames {name_index} {strings} main "
        )?;
        let mut line = sizes.into_bytes();
        line.extend_from_slice(main)?;
        line.push(b'\n')?;
        Ok(line)
    }
}
