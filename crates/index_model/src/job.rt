//! The jobs of a build, and what the last of them writes.

/// A job. The jobs of one kind are drawn only after all jobs of the kinds before are finished.
#[derive(Clone, Copy, Debug, PartialEq, Eq)]
pub enum Job {
    /// The entries of the units of a run are read, and their strings.
    Scan(u32),
    /// The references of a run are followed.
    Link(u32),
    /// The main program and the ranges of all units.
    Main,
    /// The names of a run are formed.
    Name(u32),
    /// The names of all runs become one table.
    Merge,
    /// The index is written.
    Write,
}

/// When a worker reports a job.
#[derive(Clone, Copy, Debug, PartialEq, Eq)]
pub enum Moment {
    /// After the job was drawn and before it runs.
    Begin,
    /// After the job's end was published.
    End,
}

/// Which index the last job writes.
#[derive(Clone, Copy)]
pub enum CacheKind {
    /// `.gdb_index`, version 8 (GDB manual, "Index Section Format").
    Gdb8,
    /// `.gdb_index`, version 9.
    Gdb9,
    /// `.debug_names` and the strings that it adds (DWARF 5, section 6.1.1).
    Names,
}
