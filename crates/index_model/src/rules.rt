//! What the rules on visited, indexed and static entries ask of an entry.

/// The classes of source languages (DWARF 5, section 7.12), as names are formed by them.
#[derive(Clone, Copy, Debug, PartialEq, Eq)]
pub enum Class {
    C,
    Cxx,
    Ada,
    Plain,
}

/// The lexical parent of an entry.
#[derive(Clone, Copy, Debug, PartialEq, Eq)]
pub enum Parent {
    /// The root of the unit.
    Root,
    /// An entry that isn't visited.
    Other,
    /// A visited entry, with its tag.
    Seen(u64),
}

/// What the rules ask of an entry.
#[derive(Clone, Copy)]
pub struct Facts {
    pub tag: u64,
    pub class: Class,
    pub visited: bool,
    /// Whether it has a name, its own or by its chain.
    pub named: bool,
    /// Whether it is itself a declaration.
    pub declaration: bool,
    /// Whether some entry of its chain is external.
    pub external: bool,
    /// Whether it has itself a low_pc, ranges or an entry_pc.
    pub address: bool,
    /// Whether it has itself a const_value or, as a variable, a location.
    pub value: bool,
}
