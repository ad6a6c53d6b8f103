//! How the entries of a line table's header are written in version 5 (DWARF 5, section 6.2.4.1).

/// What the values of an entry format are.
#[derive(Clone, Copy, Default)]
pub enum Content {
    /// The path.
    Path,
    /// The number of the directory.
    Directory,
    /// Something else, or once more what an earlier format of the table is.
    #[default]
    Other,
}

/// An entry format: what its values are, and their form.
#[derive(Clone, Copy, Default)]
pub struct Format {
    pub content: Content,
    pub form: u64,
}
